//! The tables that a host lends.
ghost use Rattle.std.specs.Prelude.{◌≡◌};
ghost use Rattle.tables.specs.Lent.{held, seen};

// Its methods choose the table by one match on the kind: an operation handed on as a value would be a struct and an impl
// for each, longer than the match, and could say nothing of the three types of cells at once.
/// The cells of all rows, one table a kind: row i's elements begin at i × width in the table of their kind.
#[derive(Drop)]
pub struct Tables<'a> {
    pub booleans: &'a mut [bool],
    pub characters: &'a mut [i8],
    pub integers: &'a mut [i32],
}

/// The same cells, lent to be read alone.
#[derive(Clone, Copy)]
pub struct Shared<'a> {
    pub booleans: &'a [bool],
    pub characters: &'a [i8],
    pub integers: &'a [i32],
}

impl Tables<'_> {
    /// The tables, to be read.
    pub fn shared(&self) -> Shared<'_>
        ensures { seen result ≡ held self.now }
    {
        Shared {
            booleans: self.booleans,
            characters: self.characters,
            integers: self.integers,
        }
    }
}
