//! Where a row stands.
ghost use Rattle.std.specs.Prelude.{◌≡◌};
ghost use Rattle.checker.specs.Blocks.{at, typing_at};

use crate::line::Line;
use crate::opened::Blocks;
use instruction::{Change, Instruction};
use sheet::Head;
use types::{Kind, Typing};

/// A row of a sheet, and what stands before it.
#[derive(Clone, Copy)]
pub struct Position<'a> {
    pub head: Head,
    /// The lines of the earlier rows.
    pub lines: &'a [Line],
    /// Those open before the row.
    pub blocks: &'a Blocks,
    pub row: usize,
    /// From here up to the row only expression rows stand.
    pub start: usize,
    pub is_last: bool,
}

impl Position<'_> {
    /// The line of row i; past the end that of a return, which names no variable and opens no block.
    pub fn line_at(&self, i: u16) -> Line
        ensures { result ≡ at self.now.lines.now i }
    {
        self.lines.get(usize::from(i)).copied().unwrap_or(Line {
            instruction: Instruction::Change(Change::Return(0)),
            typing: None,
            block: None,
            target: 0,
        })
    }

    /// The typing of row i; an integer scalar where it has none.
    pub fn typing_at(&self, i: u16) -> Typing
        ensures { result ≡ typing_at self.now.lines.now i }
    {
        self.line_at(i)
            .typing
            .unwrap_or(Typing::scalar(Kind::Integer))
    }
}
