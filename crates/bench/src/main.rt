// Checks the sheets that its arguments name; without any, steps an emergency stop and prints what it shows.
#![tactic(auto)]

mod stop;

use sheet::load_sheet;
use std::rt::Files;
use std::{env, fs};

// Says of one sheet whether it is accepted, or what is wrong with it.
fn check_sheet(rt: &(impl Files + Print + Alloc), path: &str) -> anyhow::Result<()> {
    let sheet = fs::read(rt, path)?;
    match load_sheet(&sheet) {
        Ok(wiring) => {
            let rows = wiring.count();
            let outputs = wiring.outputs();
            println!(rt; "{path}: accepted, {rows} rows and {outputs} outputs")?;
        }
        Err(fault) => println!(rt; "{path}: {fault}")?,
    }
    Ok(())
}

fn run(rt: &HostRuntime) -> anyhow::Result<()> {
    let mut sheets = env::args(rt)?.skip(1).peekable();
    if sheets.peek().is_none() {
        return stop::walk(rt);
    }
    for path in sheets {
        check_sheet(rt, path.as_str())?;
    }
    Ok(())
}

fn main(rt: HostRuntime) -> anyhow::Result<()> {
    run(&rt)
}
