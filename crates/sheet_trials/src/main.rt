//! Tries load, make and save at and past every limit, and prints a line for each case.
#![tactic(auto)]

mod files;
mod loads;
mod makes;
mod saves;

use loads::try_loads;
use makes::try_makes;
use saves::try_saves;

fn run(rt: &HostRuntime) -> anyhow::Result<()> {
    try_loads(rt)?;
    try_makes(rt)?;
    try_saves(rt)
}

fn main(rt: HostRuntime) -> anyhow::Result<()> {
    run(&rt)
}
