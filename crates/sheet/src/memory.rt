//! Rooms: how they are made, and how a sheet gives its room back.
ghost use Rattle.std.specs.Prelude.{◌≡◌, ◌≤◌, IfOk};
ghost use Rattle.sheet.specs.Rooms.{space as space_in, space_of, rows_of};

use crate::draft::Draft;
use crate::head::Head;
use crate::room::Room;
use crate::row::Row;
use std::alloc::{AllocError, Global};

impl Room {
    /// A room with space for at least this many rows. No other call of the crate allocates.
    pub fn new(heap: Global, rows: usize) -> Result<Room, AllocError>
        ensures { IfOk result (λ room. rows ≤ space_in room) }
    {
        let rows = Vec::with_capacity(heap, rows)?;
        Ok(Room { rows })
    }

    /// For how many rows there is space.
    pub fn space(&self) -> usize
        ensures { result ≡ space_in self.now }
    {
        self.rows.capacity()
    }
}

impl Draft {
    /// The head.
    pub fn head(&self) -> Head
        ensures { result ≡ self.now.head }
    {
        self.head
    }

    /// The rows, in order.
    pub fn rows(&self) -> &[Row]
        ensures { result.now ≡ rows_of self.now }
    {
        self.rows.as_slice()
    }

    /// Lets the sheet go and gives its room back, for another.
    pub fn into_room(self) -> Room
        ensures { space_in result ≡ space_of self }
    {
        let Draft { head: _, mut rows } = self;
        rows.clear();
        Room { rows }
    }
}
