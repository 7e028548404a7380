//! The rule of scope: which variables a row may name.
ghost use Rattle.std.specs.Prelude.{◌≡◌};
ghost use Rattle.checker.specs.Blocks.{still_in, in_scope, in_each, scoped};
ghost use Rattle.checker.specs.Stack.{open_rows};

use crate::position::Position;
use crate::says::{is_declare, is_each};
use instruction::{Change, Expression, Instruction};

impl Position<'_> {
    /// Whether the block that a row stood in is open still; a row in none stays in scope.
    fn is_still_in(&self, block: Option<u16>) -> bool
        ensures { result ≡ still_in block (open_rows self.now.blocks.now) }
    {
        block.is_none_or(|c| self.blocks.contains(c))
    }

    /// Whether row v declares a variable, in a block that is still open.
    fn is_in_scope(&self, v: u16) -> bool
        ensures { result ≡ in_scope self.now.lines.now self.now.row (open_rows self.now.blocks.now) v }
    {
        let line = self.line_at(v);
        usize::from(v) < self.row && is_declare(line.instruction) && self.is_still_in(line.block)
    }

    /// Whether row v is an each row whose block is still open.
    fn is_in_each(&self, v: u16) -> bool
        ensures { result ≡ in_each self.now.lines.now (open_rows self.now.blocks.now) v }
    {
        is_each(self.line_at(v).instruction) && self.blocks.contains(v)
    }

    /// Whether the variable that the row names is in scope; one that it writes is declared.
    pub fn is_scoped(&self, i: Instruction) -> bool
        ensures { result ≡ scoped self.now.lines.now self.now.row (open_rows self.now.blocks.now) i }
    {
        match i {
            Instruction::Expression(Expression::Variable(v)) => {
                self.is_in_scope(v) || self.is_in_each(v)
            }
            Instruction::Change(
                Change::Assign(v, _)
                | Change::Store(v, _, _)
                | Change::StoreTwo(v, _, _, _)
                | Change::Read(v),
            ) => self.is_in_scope(v),
            _ => true,
        }
    }
}
