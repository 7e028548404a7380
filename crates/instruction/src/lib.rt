//! Rows as instructions: what a row says, once its numbers are read.
#![tactic(auto)]

mod decoding;
mod fields;
mod instructions;
mod operators;

pub use decoding::decode;
pub use instructions::{
    Change, Control, Equality, Expression, Infix, Instruction, Measure, Prefix,
};
