//! The language's integers and booleans, one element at a time: operators, casts and faults.
#![tactic(auto)]

pub mod casts;
pub mod faults;
pub mod integers;
pub mod laws;
pub mod operators;
pub mod truths;
