//! A sheet in memory.
ghost use Rattle.std.specs.Prelude.{◌≤◌, vec_len};

use crate::head::Head;
use crate::row::Row;

/// A lawful head and 1 to 512 rows, of any content: what a sheet is before its rows are checked.
#[derive(Debug, Drop)]
pub struct Draft {
    pub(crate) head: Head,
    pub(crate) rows: Vec<Row>,
    ghost some: { 1 ≤ vec_len rows },
    ghost few: { vec_len rows ≤ 512 },
}
