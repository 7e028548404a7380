//! Tries check on a table of small sheets, and on sheets made by rule: pairs of types, stray fields, limits.
#![tactic(auto)]

mod cases;
mod limits;
mod pairs;
mod strays;
mod verdict;

use cases::try_cases;
use limits::try_limits;
use pairs::try_pairs;
use strays::try_strays;

fn run(rt: &HostRuntime) -> anyhow::Result<()> {
    try_cases(rt)?;
    try_limits(rt)?;
    try_strays(rt)?;
    try_pairs(rt)
}

fn main(rt: HostRuntime) -> anyhow::Result<()> {
    run(&rt)
}
