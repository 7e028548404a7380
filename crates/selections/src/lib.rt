//! Rows that pick, step and compare: each writes its value into its own cells, or tells its fault.
#![tactic(auto)]

pub mod crossing;
pub mod equalities;
pub mod indexing;
pub mod stepping;
