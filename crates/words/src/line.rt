//! A row on one line, with what is known of it.
use crate::row::RowWords;
use crate::typings::TypingWords;
use sheet::{Row, Typing};
use std::fmt;

/// Prints a row with its number and its source line, as `7  line 3  add rows 5 and 6`, and then its type, where
/// one is known.
#[derive(Clone, Copy)]
pub struct RowLine {
    pub number: usize,
    pub row: Row,
    pub typing: Option<Typing>,
}

impl fmt::Display for RowLine {
    fn fmt<W: fmt::Write>(&self, f: &mut fmt::Formatter<W>) -> fmt::Result {
        let RowLine {
            number,
            row,
            typing,
        } = *self;
        write!(f, "{number}  line {}  {}", row.line, RowWords(row))?;
        match typing {
            None => Ok(()),
            Some(typing) => write!(f, "  ({})", TypingWords(typing)),
        }
    }
}
