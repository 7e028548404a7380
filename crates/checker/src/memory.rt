//! Rooms for lines: how they are made, and how a checked sheet gives back what it was made of.
ghost use Rattle.std.specs.Prelude.{◌≡◌, ◌≤◌, [], IfOk, vec_capacity};
ghost use Rattle.checker.specs.Sheets.{space_in, lines_in};

use crate::checked::CheckedSheet;
use crate::line::Line;
use crate::room::Room;
use sheet::Draft;
use std::alloc::{AllocError, Global};

impl Room {
    /// A room with space for the lines of at least this many rows. No other call of the crate allocates.
    pub fn new(heap: Global, rows: usize) -> Result<Room, AllocError>
        ensures { IfOk result (λ room. (rows ≤ space_in room) × (lines_in room ≡ [])) }
    {
        let lines = Vec::with_capacity(heap, rows)?;
        Ok(Room { lines })
    }

    /// For how many rows there is space.
    pub fn space(&self) -> usize
        ensures { result ≡ space_in self.now }
    {
        self.lines.capacity()
    }

    /// The lines that it holds: after a refused check, those of the rows before the refused one.
    pub fn lines(&self) -> &[Line]
        ensures { result.now ≡ lines_in self.now }
    {
        self.lines.as_slice()
    }
}

impl CheckedSheet {
    /// The draft that was checked and the room of its lines, for another sheet.
    pub fn into_parts(self) -> (Draft, Room)
        ensures draft { result.0 ≡ self.draft }
        ensures space { space_in result.1 ≡ vec_capacity self.lines }
    {
        let CheckedSheet { draft, lines } = self;
        (draft, Room { lines })
    }
}
