//! Elements stored at indices of a variable. Its cells lie below those of the indices and of the values.
ghost use Rattle.std.specs.Prelude.{◌≡◌, ℕ, ◌+◌, ◌*◌, ◌^◌, ◌<◌, ◌≤◌, [], ◌∷◌, length, slice_set};
ghost use Rattle.element.specs.Cells.{put, cells};
ghost use Rattle.element.specs.Operands.{start_of, along};
ghost use Rattle.picks.specs.Indices.{index_count, indices_of, IndexBelow, IndexAbove, first_outside2, AllInside, place_of};
ghost use Rattle.picks.specs.Picks.{Guarded};
ghost use Rattle.picks.specs.Stores.{stored, StoreLeaves};

use crate::indices::{Index, Outside, place_among};
use crate::listed::Listed;
use crate::places::Integers;
use element::Element;
use element::operands::Operand;

/// Stores the values at the indices, where all of them name one of the `have` cells from `to` on.
fn store_inside<E: Element, I: Integers<E>>(
    table: &mut [E],
    to: usize,
    have: usize,
    integers: &I,
    index: Index,
    values: Operand,
)
    requires above { to + have ≤ start_of values }
    requires indices { IndexAbove index (to + have) }
    requires seen { IndexBelow index (length (I.Integers.seen integers.now table.old)) }
    requires inside { AllInside have (indices_of index (I.Integers.seen integers.now table.old)) }
    requires within { start_of values + index_count index ≤ length table.old }
    ensures { table.new ≡ put table.old to (stored (cells table.old to have) (indices_of index (I.Integers.seen integers.now table.old)) (along E.Element.NULL table.old values (index_count index))) }
{
    // the indices, the values and the cells to write may all lie in the one table: no slice has them apart
    for k in 0..index.count() {
        let place = Listed::new(index, integers, table).place(k, have);
        table[to + place] = table[values.place(k)];
    }
}

/// Stores the values at the indices of the `have` cells from `to` on, left to right, or tells the first index that names none and stores nothing.
pub fn store<E: Element, I: Integers<E>>(
    table: &mut [E],
    to: usize,
    have: usize,
    integers: &I,
    index: Index,
    values: Operand,
) -> Result<(), Outside>
    requires above { to + have ≤ start_of values }
    requires indices { IndexAbove index (to + have) }
    requires seen { IndexBelow index (length (I.Integers.seen integers.now table.old)) }
    requires within { start_of values + index_count index ≤ length table.old }
    ensures { StoreLeaves table.old to have (indices_of index (I.Integers.seen integers.now table.old)) (along E.Element.NULL table.old values (index_count index)) result table.new }
{
    Listed::new(index, integers, table).check(have, 0)?;
    store_inside(table, to, have, integers, index, values);
    Ok(())
}

/// Stores the element at row i and column j of the r × s matrix from `to` on, or tells which index names none and stores nothing.
pub fn store_matrix<E: Element>(
    table: &mut [E],
    to: usize,
    r: usize,
    s: usize,
    i: i32,
    j: i32,
    value: E,
) -> Result<(), Outside>
    requires within { to + r * s ≤ length table.old }
    ensures { Guarded (first_outside2 r s (i ∷ []) (j ∷ [])) table.old (put table.old to (slice_set (cells table.old to (r * s)) (place_of i * s + place_of j) value)) result table.new }
{
    let row = place_among(i, r).ok_or(Outside { place: 1 })?;
    let column = place_among(j, s).ok_or(Outside { place: 2 })?;
    table[to + (row * s + column)] = value;
    Ok(())
}
