//! The check of a sheet: a draft whose rows keep every rule becomes a checked sheet.
#![tactic(auto)]

mod checked;
mod checking;
mod judge;
mod line;
mod memory;
mod nesting;
mod opened;
mod operands;
mod position;
mod refused;
mod room;
mod says;
mod scope;
mod stack;
mod structure;

pub use checked::CheckedSheet;
pub use checking::check;
pub use line::Line;
pub use refused::Refused;
pub use room::Room;
pub use rules::Refusal;
