//! Operations in the table of a kind. A host lends three tables, one a kind: each function here takes a kind, and works in its table.
#![tactic(auto)]

mod casts;
mod equality;
mod frames;
mod indices;
mod intakes;
mod lent;
mod moves;
mod outputs;
mod streams;

pub use frames::{Frame, View};
pub use intakes::Intake;
pub use lent::{Shared, Tables};
pub use outputs::Output;
