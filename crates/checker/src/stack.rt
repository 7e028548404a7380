//! The blocks that are open at a row.
ghost use Rattle.std.specs.Prelude.{◌≡◌, ◌<◌, true, [], ◌∷◌, length};
ghost use Rattle.checker.specs.Blocks.{outer, turned, after, innermost as innermost_of, member};
ghost use Rattle.checker.specs.Stack.{open_rows, turn_fits, fits};

use crate::opened::Blocks;
use arrayvec::ArrayVec;
use instruction::{Control, Instruction};

impl Blocks {
    /// No block is open.
    pub fn new() -> Blocks
        ensures { open_rows result ≡ [] }
    {
        Blocks {
            rows: ArrayVec::new(),
        }
    }

    /// How many are open.
    pub fn depth(&self) -> usize
        ensures { result ≡ length (open_rows self.now) }
    {
        self.rows.len()
    }

    /// Row `row` opens a block.
    pub fn enter(&mut self, row: u16)
        requires { length (open_rows self.old) < 32 }
        ensures { open_rows self.new ≡ row ∷ open_rows self.old }
    {
        self.rows.push(row);
    }

    /// The innermost block is closed, if one is open.
    pub fn leave(&mut self)
        ensures { open_rows self.new ≡ outer (open_rows self.old) }
    {
        self.rows.pop();
    }

    /// The opener of the innermost block.
    pub fn innermost(&self) -> Option<u16>
        ensures { result ≡ innermost_of (open_rows self.now) }
    {
        self.rows.as_slice().last().copied()
    }

    /// Whether the block of this opener is open.
    pub fn contains(&self, row: u16) -> bool
        ensures { result ≡ member row (open_rows self.now) }
    {
        self.rows.as_slice().contains(&row)
    }

    fn turn(&mut self, t: Control, p: u16)
        requires { turn_fits t (open_rows self.old) ≡ true }
        ensures { open_rows self.new ≡ turned t p (open_rows self.old) }
    {
        match t {
            Control::If(..) | Control::Loop(_) | Control::Each(..) => self.enter(p),
            Control::Else(_) => {
                self.leave();
                self.enter(p);
            }
            Control::Test(_) | Control::Break | Control::Continue => {}
            Control::End(_) => self.leave(),
        }
    }

    /// The blocks that are open after row p.
    pub fn advance(&mut self, i: Instruction, p: u16)
        requires { fits i (open_rows self.old) ≡ true }
        ensures { open_rows self.new ≡ after i p (open_rows self.old) }
    {
        if let Instruction::Control(t) = i {
            self.turn(t, p);
        }
    }
}
