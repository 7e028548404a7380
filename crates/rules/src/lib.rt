//! The rules of kinds, shapes and sizes, one for each row, on the types of its operands alone.
#![tactic(auto)]

pub mod expressions;
pub mod operators;
mod refusal;
mod sizing;
pub mod statements;

pub use refusal::Refusal;
pub use sizing::{Judged, need};
