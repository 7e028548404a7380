//! The rule of blocks, and where jumps lead.
ghost use Rattle.std.specs.Prelude.{◌≡◌};
ghost use Rattle.checker.specs.Blocks.{loop_among, closes_if, closes_block, turn_nests, nests, row_of, target_of};
ghost use Rattle.checker.specs.Stack.{open_rows};

use crate::position::Position;
use crate::says::{closer_of, is_if, is_loop};
use instruction::{Change, Control, Instruction};

impl Position<'_> {
    /// The opener of the innermost loop or each that is open.
    fn innermost_loop(&self) -> Option<u16>
        ensures { result ≡ loop_among self.now.lines.now (open_rows self.now.blocks.now) }
    {
        self.blocks
            .rows
            .as_slice()
            .iter()
            .rev()
            .copied()
            .find(|row| is_loop(self.line_at(*row).instruction))
    }

    /// Whether the row, an else, may close the innermost block.
    fn can_turn(&self) -> bool
        ensures { result ≡ closes_if self.now.lines.now self.now.row (open_rows self.now.blocks.now) }
    {
        let Some(c) = self.blocks.innermost() else {
            return false;
        };
        let opener = self.line_at(c).instruction;
        is_if(opener) && usize::from(closer_of(opener)) == self.row
    }

    /// Whether the row, an end that names row b, may close the innermost block.
    fn can_close(&self, b: u16) -> bool
        ensures { result ≡ closes_block self.now.lines.now self.now.row b (open_rows self.now.blocks.now) }
    {
        let Some(c) = self.blocks.innermost() else {
            return false;
        };
        b == c && usize::from(closer_of(self.line_at(c).instruction)) == self.row
    }

    fn is_control_nested(&self, t: Control) -> bool
        ensures { result ≡ turn_nests self.now.lines.now self.now.row (open_rows self.now.blocks.now) t }
    {
        match t {
            Control::If(..) | Control::Loop(_) | Control::Each(..) => self.blocks.depth() < 32,
            Control::Else(_) => self.can_turn(),
            Control::Test(_) | Control::Break | Control::Continue => {
                self.innermost_loop().is_some()
            }
            Control::End(b) => self.can_close(b),
        }
    }

    /// Whether the row keeps the rule of blocks.
    pub fn is_nested(&self, i: Instruction) -> bool
        ensures { result ≡ nests self.now.lines.now self.now.row (open_rows self.now.blocks.now) self.now.is_last i }
    {
        match i {
            Instruction::Expression(_) => !self.is_last,
            Instruction::Change(s) => {
                !self.is_last || matches!(s, Change::Return(_)) && self.blocks.depth() == 0
            }
            Instruction::Control(t) => !self.is_last && self.is_control_nested(t),
        }
    }

    fn loop_row(&self) -> u16
        ensures { result ≡ row_of (loop_among self.now.lines.now (open_rows self.now.blocks.now)) }
    {
        self.innermost_loop().unwrap_or(0)
    }

    /// After which row a jump goes on.
    pub fn target_of(&self, i: Instruction) -> u16
        ensures { result ≡ target_of self.now.lines.now (open_rows self.now.blocks.now) i }
    {
        match i {
            Instruction::Control(Control::Test(_) | Control::Break) => {
                closer_of(self.line_at(self.loop_row()).instruction)
            }
            Instruction::Control(Control::Continue) => self.loop_row(),
            _ => closer_of(i),
        }
    }
}
