//! Memory for the lines of a checked sheet.
use crate::line::Line;

/// Space for a line a row, allocated before it is needed. After a refused check it holds the lines of the
/// rows before the one that was refused.
// Not one type with the room of a sheet's rows: that one holds nothing, this one keeps lines after a refused check.
#[derive(Debug, Drop)]
pub struct Room {
    pub(crate) lines: Vec<Line>,
}
