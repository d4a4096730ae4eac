// The bench program: plays a script on one station and prints every answer.
#![tactic(auto)]

mod gather;
mod play;

use crate::play::play;
use anyhow::{Context, bail, ensure};
use stations::{Bare, Buttons, Panels};
use std::io::Read;
use std::{env, fs};

const USAGE: &str = "usage: bench STATION [SCRIPT]";

fn read_standard_input(rt: &HostRuntime) -> anyhow::Result<Vec<u8>> {
    let mut script = Vec::new(rt.alloc());
    rt.stdin().read_to_end(&mut script)?;
    Ok(script)
}

// Plays a script on the station of this name. Each arm plays at a type of its own, so a table of functions would only name them again.
fn play_on(rt: &HostRuntime, station: &str, script: &[u8]) -> anyhow::Result<()> {
    match station {
        "catalogue" => play::<Bare>(rt, script),
        "button" => play::<Buttons>(rt, script),
        "group" => play::<Panels>(rt, script),
        _ => bail!("the station is catalogue, button or group"),
    }
}

// `bench STATION [SCRIPT]`; without a script's path the script comes from standard input.
pub fn run_bench(rt: &HostRuntime) -> anyhow::Result<()> {
    let mut arguments = env::args(rt)?.skip(1);
    let station = arguments.next().context(USAGE)?;
    let script = match arguments.next() {
        Some(path) => fs::read(rt, path.as_str())?,
        None => read_standard_input(rt)?,
    };
    ensure!(arguments.next().is_none(), USAGE);
    play_on(rt, station.as_str(), &script)
}
