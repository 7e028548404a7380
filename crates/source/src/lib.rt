//! Where a sheet's input comes from: sources of bytes, and the values that are read from them.
#![tactic(auto)]

mod letter;
mod line;
mod numeral;
mod reader;
mod recorder;
mod refusal;
mod source;
mod state;
mod text;
mod words;

pub use crate::reader::{Readable, WithNull, read_value};
pub use crate::recorder::Recorder;
pub use crate::refusal::SourceRefusal;
pub use crate::source::Source;
pub use crate::state::{Misread, ReadValue, StreamState};
pub use crate::text::Text;
