// An emergency stop through power-up, reset, stop and recovery.
use anyhow::Context;
use block::{Block, Input, Kind, Setup, Word};
use catalogue::Catalogue;

// One scan: what happens, pin 0 of the stop, and the reset bit.
#[derive(Clone, Copy)]
struct Scan {
    what: &'static str,
    pin: bool,
    reset: bool,
}

const SCANS: [Scan; 9] = [
    Scan {
        what: "power-up, nothing pressed",
        pin: true,
        reset: false,
    },
    Scan {
        what: "ready for the reset",
        pin: true,
        reset: false,
    },
    Scan {
        what: "reset pressed",
        pin: true,
        reset: true,
    },
    Scan {
        what: "reset let go",
        pin: true,
        reset: false,
    },
    Scan {
        what: "stop button pressed in",
        pin: false,
        reset: false,
    },
    Scan {
        what: "reset pressed too early",
        pin: false,
        reset: true,
    },
    Scan {
        what: "reset let go",
        pin: false,
        reset: false,
    },
    Scan {
        what: "stop button pulled out",
        pin: true,
        reset: false,
    },
    Scan {
        what: "reset pressed",
        pin: true,
        reset: true,
    },
];

fn input_of(scan: Scan, before: bool) -> Input {
    Input {
        active: true,
        word: Word {
            pin0: scan.pin,
            pin1: false,
            pin2: false,
            pin3: false,
        },
        now: scan.reset,
        before,
        elapsed: 10,
    }
}

// Prints what the stop shows after each step.
pub fn walk(rt: &(impl Print)) -> anyhow::Result<()> {
    let setup = Setup::new(Kind::Estop, false, false, 350, 2000).context("setup")?;
    let mut stop = Catalogue::make(setup);
    let mut before = true;
    for scan in SCANS {
        stop = stop.step(input_of(scan, before));
        before = scan.reset;
        let what = scan.what;
        let mode = stop.mode();
        let code = stop.code().number();
        println!(rt; "{what:<26}mode={mode:<6}code={code:04X}")?;
    }
    Ok(())
}
