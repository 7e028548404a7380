//! Sheets: programs of rows, and the files that hold them.
//!
//! A file is a note, rows of twenty bytes and a trailer of twenty bytes. `load` makes a `Draft` of a
//! file, `make` one of a head and rows, and `Draft::save` writes one as a file again. All of them work in
//! memory that the caller brings.
#![tactic(auto)]

mod bytes;
mod draft;
mod head;
mod making;
mod memory;
mod numbers;
mod reading;
mod refusal;
mod room;
mod row;
mod row_codec;
mod rows;
mod trailer;
mod trips;
mod writing;

pub use draft::Draft;
pub use head::{Head, HeadNumbers, UnlawfulHead};
pub use making::make;
pub use reading::{MAX_NOTE, MAX_ROWS, load};
pub use refusal::{Refusal, Returned};
pub use room::Room;
pub use row::Row;
pub use trips::{file_is_unique, reload, resave};
pub use types::{Form, Kind, Shape, Size, Typing, UnknownNumber};
