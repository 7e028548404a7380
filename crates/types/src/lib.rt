//! Kinds, shapes and sizes: what a value may be, and what is known of one before a sheet runs.
#![tactic(auto)]

mod kinds;
pub mod sizes;
mod typing;
mod unknown;

pub use kinds::{Form, Kind, Shape};
pub use sizes::Size;
pub use typing::Typing;
pub use unknown::UnknownNumber;
