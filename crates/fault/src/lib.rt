//! The fault of a row: why it has no result, and where.
#![tactic(auto)]

mod causes;
mod faults;

pub use causes::Cause;
pub use faults::Fault;
