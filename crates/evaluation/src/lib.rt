//! An expression row at work, whatever it says.
#![tactic(auto)]

mod evaluating;
mod operators;

pub use evaluating::evaluate;
