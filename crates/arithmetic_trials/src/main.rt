//! Tables of cases: every operator, cast and product, with results that were worked by the rules.
#![tactic(auto)]

mod casts;
mod cells;
mod faults;
mod scalars;

use std::io;

fn main(rt: HostRuntime) -> io::Result<()> {
    scalars::operators(&rt)?;
    scalars::orders(&rt)?;
    scalars::logic(&rt)?;
    scalars::prefixes(&rt)?;
    casts::casts(&rt)?;
    cells::vectors(&rt)?;
    cells::scalars(&rt)?;
    cells::booleans(&rt)?;
    cells::dots(&rt)?;
    cells::matrices(&rt)?;
    faults::rows(&rt)
}
