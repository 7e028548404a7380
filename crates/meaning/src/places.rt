//! Where a row works.

/// A row at work: its number, the line of the source that it came from, and how many cells each row has.
#[derive(Clone, Copy, Debug, PartialEq, Eq)]
// No ghost field bounds the width: rows that serve any width would then ask more than they do.
pub struct Place {
    pub width: u16,
    pub row: u16,
    pub line: u16,
}
