//! Memory for the rows of a sheet.
ghost use Rattle.std.specs.Prelude.{◌≡◌, []};

use crate::row::Row;

/// Space for the rows of one sheet, allocated before it is needed: load and make work inside it, so
/// that want of memory is met where a room is made and nowhere else.
#[derive(Debug, Drop)]
pub struct Room {
    pub(crate) rows: Vec<Row>,
    ghost bare: { rows.items ≡ [] },
}
