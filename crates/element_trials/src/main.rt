//! A table of cases: printing, and every operation on cells. The expected lines were worked by hand.
#![tactic(auto)]

mod choosing;
mod crossing;
mod moving;
mod printing;
mod show;
mod storing;

fn main(rt: HostRuntime) -> anyhow::Result<()> {
    printing::scalars(&rt)?;
    printing::vectors(&rt)?;
    printing::matrices(&rt)?;
    printing::room(&rt)?;
    moving::vectors(&rt)?;
    moving::orders(&rt)?;
    moving::matrices(&rt)?;
    moving::comparisons(&rt)?;
    choosing::vectors(&rt)?;
    choosing::beside(&rt)?;
    crossing::matrices(&rt)?;
    crossing::intervals(&rt)?;
    storing::vectors(&rt)?;
    storing::matrices(&rt)
}
