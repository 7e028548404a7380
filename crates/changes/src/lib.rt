//! Rows that declare, assign and store: each fills the cells of a variable, or tells its fault and writes nothing.
#![tactic(auto)]

pub mod assigns;
pub mod declares;
mod moves;
pub mod stores;
