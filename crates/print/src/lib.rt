//! Printing of values into a lent output: scalars, vectors, matrices.
#![tactic(auto)]

mod gaps;
pub mod lengths;
pub mod prints;
mod writes;

pub use prints::{print_matrix, print_scalar, print_vector};
