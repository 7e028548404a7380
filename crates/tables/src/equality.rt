//! Whether runs of cells in the table of a kind hold the same elements.
ghost use Rattle.std.specs.Prelude.{◌≡◌, ◌+◌, ◌<◌, ◌≤◌, length, replicate, Decides, slice_index_or};
ghost use Rattle.element.specs.Cells.{cells};
ghost use Rattle.meaning.specs.Elements.{same_cells};
ghost use Rattle.meaning.specs.States.{table_of};
ghost use Rattle.meaning.specs.Values.{null_of};
ghost use Rattle.tables.specs.Lent.{seen, Reach};

use crate::lent::Shared;
use element::{Element, equality};
use types::Kind;

/// Whether each of the n cells from `at` on holds what the cell `scalar` of that table holds.
fn equal_to_cell<E: Element>(table: &[E], at: usize, n: usize, scalar: usize) -> bool
    requires some { scalar < length table.now }
    requires within { at + n ≤ length table.now }
    ensures { Decides result (cells table.now at n ≡ replicate n (slice_index_or table.now scalar E.Element.NULL)) }
{
    equality::equal_throughout(table, at, n, table[scalar])
}

impl Shared<'_> {
    /// Whether the n cells from `a` on hold what the n cells from `b` on hold.
    pub fn equal(&self, kind: Kind, a: usize, b: usize, n: usize) -> bool
        requires left { Reach (a + n) (seen self.now) }
        requires right { Reach (b + n) (seen self.now) }
        ensures { result ≡ same_cells kind (cells (table_of kind (seen self.now)) a n) (cells (table_of kind (seen self.now)) b n) }
    {
        match kind {
            Kind::Boolean => equality::equal(self.booleans, a, b, n),
            Kind::Character => equality::equal(self.characters, a, b, n),
            Kind::Integer => equality::equal(self.integers, a, b, n),
        }
    }

    /// Whether each of the n cells from `at` on holds what the cell `scalar` holds.
    pub fn equal_throughout(&self, kind: Kind, at: usize, n: usize, scalar: usize) -> bool
        requires scalar { Reach (scalar + 1) (seen self.now) }
        requires within { Reach (at + n) (seen self.now) }
        ensures { result ≡ same_cells kind (cells (table_of kind (seen self.now)) at n) (replicate n (slice_index_or (table_of kind (seen self.now)) scalar (null_of kind))) }
    {
        match kind {
            Kind::Boolean => equal_to_cell(self.booleans, at, n, scalar),
            Kind::Character => equal_to_cell(self.characters, at, n, scalar),
            Kind::Integer => equal_to_cell(self.integers, at, n, scalar),
        }
    }
}
