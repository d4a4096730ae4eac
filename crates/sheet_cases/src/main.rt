// Sheets at the edges of every rule, and what the loader answers.
// stdin has the lines to alter in a good sheet, and stdout the stored answers.
#![tactic(auto)]

mod wholes;

use sheet::load_sheet;
use std::alloc::{AllocError, Global};
use std::fmt::Display;
use std::io;

// A good sheet: an emergency stop, and a gate that is active while the stop is on.
const BASE: [&str; 18] = [
    "rows=02",
    "outs=02",
    "min=350",
    "max=2000",
    "kind=estop",
    "act=1",
    "pins=i00,0,1,1",
    "reset=i05",
    "start=0",
    "auto=1",
    "kind=and",
    "act=r00",
    "pins=r00,i01,1,i63",
    "reset=-",
    "start=0",
    "auto=0",
    "out=r01",
    "out=r00",
];

// The good sheet, or the sheet with another text in one line; the lines are counted from 1.
fn altered(heap: Global, change: Option<(usize, &str)>) -> Result<Vec<u8>, AllocError> {
    let mut sheet = Vec::new(heap);
    for (number, kept) in (1..).zip(BASE) {
        let written = match change {
            Some((line, text)) if line == number => text,
            _ => kept,
        };
        sheet.extend_from_slice(written.as_bytes())?;
        sheet.extend_from_slice(b"\n")?;
    }
    Ok(sheet)
}

// What the loader answers to a sheet, after a word on the sheet.
fn say(rt: &impl Print, what: impl Display + Drop, sheet: &[u8]) -> io::Result<()> {
    print!(rt; "{what}: ")?;
    match load_sheet(sheet) {
        Ok(wiring) => {
            let times = wiring.times();
            println!(rt;
                "accepted, {} rows, {} outputs, {} to {} ms",
                wiring.count(),
                wiring.outputs(),
                times.min(),
                times.max(),
            )
        }
        Err(fault) => println!(rt; "{fault}"),
    }
}

// One case: the number of the line, a space, and what is to stand in it.
fn run_case(rt: &impl Print, heap: Global, case: &str) -> io::Result<()> {
    let Some((number, text)) = case.split_once(' ') else {
        return println!(rt; "no case: {case}");
    };
    let Ok(line) = number.parse::<usize>() else {
        return println!(rt; "no line: {case}");
    };
    let sheet = altered(heap, Some((line, text)))?;
    say(rt, format_args!("line {line} `{text}`"), sheet.as_slice())
}

fn main(rt: HostRuntime) -> io::Result<()> {
    for case in rt.lines(rt.alloc()) {
        run_case(&rt, rt.alloc(), case?.as_str())?;
    }
    wholes::run(&rt, rt.alloc())
}
