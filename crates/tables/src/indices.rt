//! Elements picked and stored by indices, in the table of a kind. The indices are cells of the integer table, or an interval.
ghost use Rattle.std.specs.Prelude.{◌+◌, ◌*◌, ◌^◌, ◌<◌, ◌≤◌, [], ◌∷◌, length, set, slice_index_or, slice_set};
ghost use Rattle.element.specs.Cells.{put, cells};
ghost use Rattle.picks.specs.Indices.{index_count, indices_of, IndexBelow, IndexAbove, first_outside, first_outside2, place_of};
ghost use Rattle.picks.specs.Picks.{picked, crossed, Guarded};
ghost use Rattle.element.specs.Operands.{along, start_of};
ghost use Rattle.picks.specs.Stores.{stored};
ghost use Rattle.meaning.specs.Values.{null_of};
ghost use Rattle.meaning.specs.Works.{changed, Chosen};
ghost use Rattle.tables.specs.Lent.{held, Kept, Reach};

use crate::lent::Tables;
use element::Element;
use element::operands::Operand;
use picks::{Beside, Index, Outside, Within};
use types::Kind;

/// Stores the element in the cell `from` at row i and column j of the r × s matrix from `to` on, in one table.
fn store_cell<E: Element>(
    table: &mut [E],
    to: usize,
    r: usize,
    s: usize,
    i: i32,
    j: i32,
    from: usize,
) -> Result<(), Outside>
    requires some { from < length table.old }
    requires within { to + r * s ≤ length table.old }
    ensures { Guarded (first_outside2 r s (i ∷ []) (j ∷ [])) table.old (put table.old to (slice_set (cells table.old to (r * s)) (place_of i * s + place_of j) (slice_index_or table.old from E.Element.NULL))) result table.new }
{
    let value = table[from];
    picks::store_matrix(table, to, r, s, i, j, value)
}

impl Tables<'_> {
    /// Writes the elements of the `have` cells from `from` on that the indices name, or tells the first index that names none.
    pub fn pick(
        &mut self,
        kind: Kind,
        from: usize,
        have: usize,
        index: Index,
        to: usize,
    ) -> Result<(), Outside>
        requires below { from + have ≤ to }
        requires indices { IndexBelow index to }
        requires seen { IndexBelow index (length self.old.integers.now) }
        requires within { Reach (to + index_count index) (held self.old) }
        ensures value { Chosen (first_outside 1 have (indices_of index self.old.integers.now)) (held self.old) (changed kind (held self.old) to (λ k T. picked (null_of k) (cells T from have) (indices_of index self.old.integers.now))) result (held self.new) }
        ensures lent { Kept self.old self.new }
    {
        let booleans = &mut *self.booleans;
        let characters = &mut *self.characters;
        let integers = &mut *self.integers;
        match kind {
            Kind::Boolean => picks::pick(booleans, from, have, &Beside { integers }, index, to),
            Kind::Character => picks::pick(characters, from, have, &Beside { integers }, index, to),
            Kind::Integer => picks::pick(integers, from, have, &Within, index, to),
        }
    }

    /// Writes the elements of the r × s matrix from `from` on where the rows and columns cross, or tells the first index that names no row or column.
    pub fn pick_matrix(
        &mut self,
        kind: Kind,
        from: usize,
        r: usize,
        s: usize,
        rows: Index,
        columns: Index,
        to: usize,
    ) -> Result<(), Outside>
        requires below { from + r * s ≤ to }
        requires rows_below { IndexBelow rows to }
        requires columns_below { IndexBelow columns to }
        requires rows_seen { IndexBelow rows (length self.old.integers.now) }
        requires columns_seen { IndexBelow columns (length self.old.integers.now) }
        requires few { index_count rows + index_count columns < 2 ^ 64 }
        requires within { Reach (to + index_count rows * index_count columns) (held self.old) }
        ensures value { Chosen (first_outside2 r s (indices_of rows self.old.integers.now) (indices_of columns self.old.integers.now)) (held self.old) (changed kind (held self.old) to (λ k T. crossed (null_of k) s (cells T from (r * s)) (indices_of rows self.old.integers.now) (indices_of columns self.old.integers.now))) result (held self.new) }
        ensures lent { Kept self.old self.new }
    {
        let booleans = &mut *self.booleans;
        let characters = &mut *self.characters;
        let integers = &mut *self.integers;
        match kind {
            Kind::Boolean => picks::pick_matrix(
                booleans,
                from,
                r,
                s,
                &Beside { integers },
                rows,
                columns,
                to,
            ),
            Kind::Character => picks::pick_matrix(
                characters,
                from,
                r,
                s,
                &Beside { integers },
                rows,
                columns,
                to,
            ),
            Kind::Integer => picks::pick_matrix(integers, from, r, s, &Within, rows, columns, to),
        }
    }

    /// Stores the values at the indices of the `have` cells from `to` on, left to right, or tells the first index that names none and stores nothing.
    pub fn store(
        &mut self,
        kind: Kind,
        to: usize,
        have: usize,
        index: Index,
        values: Operand,
    ) -> Result<(), Outside>
        requires above { to + have ≤ start_of values }
        requires indices { IndexAbove index (to + have) }
        requires seen { IndexBelow index (length self.old.integers.now) }
        requires within { Reach (start_of values + index_count index) (held self.old) }
        ensures value { Chosen (first_outside 1 have (indices_of index self.old.integers.now)) (held self.old) (changed kind (held self.old) to (λ k T. stored (cells T to have) (indices_of index self.old.integers.now) (along (null_of k) T values (index_count index)))) result (held self.new) }
        ensures lent { Kept self.old self.new }
    {
        let booleans = &mut *self.booleans;
        let characters = &mut *self.characters;
        let integers = &mut *self.integers;
        match kind {
            Kind::Boolean => picks::store(booleans, to, have, &Beside { integers }, index, values),
            Kind::Character => picks::store(
                characters,
                to,
                have,
                &Beside { integers },
                index,
                values,
            ),
            Kind::Integer => picks::store(integers, to, have, &Within, index, values),
        }
    }

    /// Stores the element in the cell `from` at row i and column j of the r × s matrix from `to` on, or tells which index names none and stores nothing.
    pub fn store_matrix(
        &mut self,
        kind: Kind,
        to: usize,
        r: usize,
        s: usize,
        i: i32,
        j: i32,
        from: usize,
    ) -> Result<(), Outside>
        requires from { Reach (from + 1) (held self.old) }
        requires within { Reach (to + r * s) (held self.old) }
        ensures value { Chosen (first_outside2 r s (i ∷ []) (j ∷ [])) (held self.old) (changed kind (held self.old) to (λ k T. set (cells T to (r * s)) (place_of i * s + place_of j) (slice_index_or T from (null_of k)))) result (held self.new) }
        ensures lent { Kept self.old self.new }
    {
        match kind {
            Kind::Boolean => store_cell(self.booleans, to, r, s, i, j, from),
            Kind::Character => store_cell(self.characters, to, r, s, i, j, from),
            Kind::Integer => store_cell(self.integers, to, r, s, i, j, from),
        }
    }
}
