// A small sheet on the three stations, to check by hand.
use crate::{Bare, Buttons, Panels};
use block::{Block, Kind, Setup};
use station::{Refusal, Station};
use std::test::Fail;

// r00: terminals 0 and 1; r01: an emergency stop on r00 and, turned, on terminal 2, reset at terminal 8.
const SHEET: &[u8] =
    b"rows=02\nouts=02\nmin=350\nmax=2000\nkind=and\nact=1\npins=i00,i01,1,1\nreset=-\nstart=0\nauto=0\nkind=estop\nact=1\npins=r00,0,i02,0\nreset=i08\nstart=0\nauto=0\nout=r00\nout=r01\n";

// Terminals 0 to 2 on, and the reset or not.
const CLEAR: [u8; 8] = [7, 0, 0, 0, 0, 0, 0, 0];

const PRESSED: [u8; 8] = [7, 1, 0, 0, 0, 0, 0, 0];

fn blank<B: Block>() -> Result<B, Fail> {
    let setup = Setup::new(Kind::And, false, false, 350, 2000).ok_or("no setup")?;
    Ok(B::make(setup))
}

#[test]
fn a_gate_that_is_on_reports_so(rt: HostRuntime) -> Result<(), Fail> {
    let mut station = Station::new();
    let mut table: [Bare; 32] = [blank()?; 32];
    let mut outputs = [0; 2];
    assert!(rt; station.load(SHEET, &mut table, &mut outputs).is_ok());
    assert!(rt; station.scan(&mut table, &CLEAR, 10, &mut outputs).is_ok());
    let mut place = [b'.'; 60];
    assert!(rt; station.report(&table, 0, &mut place) == Ok(51));
    assert!(rt;
        place.starts_with(b"row=00\ncode=8000\nmode=on\nready=1\nerror=0\nrequest=0\n.........")
    );
    Ok(())
}

#[test]
fn a_stop_waits_for_its_reset(rt: HostRuntime) -> Result<(), Fail> {
    let mut station = Station::new();
    let mut table: [Bare; 32] = [blank()?; 32];
    let mut outputs = [0; 2];
    assert!(rt; station.load(SHEET, &mut table, &mut outputs).is_ok());
    let _ = station.scan(&mut table, &CLEAR, 10, &mut outputs);
    let _ = station.scan(&mut table, &CLEAR, 10, &mut outputs);
    assert_eq!(rt; outputs, [1, 0]);
    let _ = station.scan(&mut table, &PRESSED, 10, &mut outputs);
    assert_eq!(rt; outputs, [3, 0]);
    assert!(rt; station.scan(&mut table, &CLEAR, 1001, &mut outputs) == Err(Refusal::Elapsed));
    assert_eq!(rt; outputs, [0, 0]);
    Ok(())
}

#[test]
fn a_panel_asks_for_a_whole_press(rt: HostRuntime) -> Result<(), Fail> {
    let mut station = Station::new();
    let mut table: [Panels; 32] = [blank()?; 32];
    let mut outputs = [0; 2];
    assert!(rt; station.load(SHEET, &mut table, &mut outputs).is_ok());
    let _ = station.scan(&mut table, &CLEAR, 10, &mut outputs);
    let _ = station.scan(&mut table, &CLEAR, 10, &mut outputs);
    let _ = station.scan(&mut table, &CLEAR, 10, &mut outputs);
    let _ = station.scan(&mut table, &PRESSED, 10, &mut outputs);
    let _ = station.scan(&mut table, &PRESSED, 200, &mut outputs);
    assert_eq!(rt; outputs, [1, 0]);
    let _ = station.scan(&mut table, &CLEAR, 150, &mut outputs);
    assert_eq!(rt; outputs, [3, 0]);
    assert!(rt; station.halt(&mut table, &mut outputs).is_ok());
    assert_eq!(rt; outputs, [0, 0]);
    Ok(())
}

#[test]
fn refusals_come_in_their_order(rt: HostRuntime) -> Result<(), Fail> {
    let mut station = Station::new();
    let mut table: [Buttons; 32] = [blank()?; 32];
    let mut outputs = [9; 2];
    let mut place = [0; 53];
    assert!(rt; station.report(&table, 0, &mut place) == Err(Refusal::Number));
    assert!(rt;
        station
            .load(SHEET, &mut table[0..31], &mut outputs)
            .is_err()
    );
    assert_eq!(rt; outputs, [9, 9]);
    assert!(rt; station.load(SHEET, &mut table, &mut outputs).is_ok());
    assert!(rt; station.report(&table, 2, &mut place) == Err(Refusal::Number));
    assert!(rt; station.report(&table, 1, &mut place) == Err(Refusal::Place));
    assert!(rt; station.scan(&mut table, &CLEAR[0..7], 0, &mut outputs) == Err(Refusal::Sizes));
    Ok(())
}
