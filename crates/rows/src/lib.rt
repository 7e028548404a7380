//! A row of a checked sheet at work in lent tables: what it does, whatever it says.
#![tactic(auto)]

mod changing;
mod variables;
mod working;

pub use working::work;
