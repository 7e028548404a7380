//! What the cells of a row hold.
use types::{Kind, Shape};

/// What a row's cells hold now. A host lends the slips, and may have written anything into them.
#[derive(Clone, Copy, Debug, PartialEq, Eq)]
pub struct Slip {
    /// The kind of the row's value; none where the slip is blank.
    pub kind: Option<Kind>,
    pub shape: Shape,
    /// How many rows and columns the value has.
    pub r: u16,
    pub s: u16,
    /// Of an each row: which element of its domain it has, from 0. Of every other row 0.
    pub position: u32,
}
