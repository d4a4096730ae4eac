// `bench STATION [SCRIPT]`: plays a script on one station and prints every answer.
#![tactic(auto)]

use driver::run_bench;

fn main(rt: HostRuntime) -> anyhow::Result<()> {
    run_bench(&rt)
}
