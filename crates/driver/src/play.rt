// Playing requests on a new station.
use crate::gather::gather;
use anyhow::Context;
use block::{Block, Kind, Setup};
use desk::{Answer, Desk, Request, answer_text};
use std::io::Write;

// How many blocks a script can lend.
const BLOCKS: usize = 40;

// An AND with the times 350 and 2000, which every block of the table is at first.
fn first_block<B: Block>() -> anyhow::Result<B> {
    let setup = Setup::new(Kind::And, false, false, 350, 2000).context("setup")?;
    Ok(B::make(setup))
}

fn print_answers(rt: &HostRuntime, answers: &[Answer]) -> anyhow::Result<()> {
    let mut out = rt.stdout();
    for answer in answers {
        out.write_all(&answer_text(rt.alloc(), answer)?)?;
    }
    Ok(())
}

// Serves the requests on this memory and prints their answers.
fn serve_and_print<B: Block>(
    rt: &HostRuntime,
    requests: &[Request],
    table: &mut [B],
) -> anyhow::Result<()> {
    let mut desk = Desk::new();
    let mut outputs = [0; 4];
    let mut answers = Vec::new(rt.alloc());
    desk.run(requests, table, &mut outputs, &mut answers)?;
    print_answers(rt, &answers)
}

// Plays a script, and says then what ended it early.
pub fn play<B: Block>(rt: &HostRuntime, script: &[u8]) -> anyhow::Result<()> {
    let mut requests = Vec::new(rt.alloc());
    let gathered = gather(rt, script, &mut requests)?;
    let mut table = vec![in rt.alloc(); first_block::<B>()?; BLOCKS]?;
    serve_and_print(rt, &requests, &mut table)?;
    gathered
}
