//! Rows, types and notes in words, for people: each is a value that prints itself.
#![tactic(auto)]

mod escape;
mod line;
mod row;
mod templates;
mod typings;

pub use escape::Escaped;
pub use line::RowLine;
pub use row::RowWords;
pub use typings::{HeadWords, TypingWords};
