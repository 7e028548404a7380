//! The cells of lent tables: what is written once for every kind of cell.
#![tactic(auto)]

mod booleans;
pub mod cells;
mod characters;
mod decimals;
pub mod elements;
pub mod equality;
mod integers;
pub mod matrices;
pub mod operands;
pub mod steps;

pub use elements::Element;
