//! A sheet that check has passed.
ghost use Rattle.std.specs.Prelude.{◌≡◌, length};
ghost use Rattle.sheet.specs.Rooms.{rows_of};
ghost use Rattle.checker.specs.Judge.{Lawful, Noted};

use crate::line::Line;
use sheet::Draft;

/// A draft whose every row keeps the rules, with a line for each row.
#[derive(Debug, Drop)]
pub struct CheckedSheet {
    pub(crate) draft: Draft,
    pub(crate) lines: Vec<Line>,
    ghost long: { length lines.items ≡ length (rows_of draft) },
    ghost lawful: { Lawful draft.head.width draft.head.result (rows_of draft) lines.items },
    ghost noted: { Noted draft.head.width draft.head.result (rows_of draft) lines.items },
}
