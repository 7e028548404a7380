//! Expression rows at work: each writes its value into its own cells, or tells its fault.
#![tactic(auto)]

pub mod answers;
pub mod builds;
pub mod calculations;
pub mod constants;
pub mod copies;
pub mod integers;
pub mod lists;
pub mod operands;
pub mod prefixes;
pub mod products;
