//! Trials of sources and reads: a line for each case.
#![tactic(auto)]

mod back;
mod pairs;
mod records;
mod repeated;
mod table;
mod turns;
mod words;

use std::io;

fn main(rt: HostRuntime) -> io::Result<()> {
    words::one_by_one(&rt)?;
    turns::in_turn(&rt)?;
    turns::greatest_count(&rt)?;
    pairs::two_at_once(&rt)?;
    records::recorders(&rt)?;
    back::readings(&rt)?;
    records::long_words(&rt)?;
    records::limits(&rt)
}
