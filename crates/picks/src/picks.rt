//! Elements picked by indices: of a vector, and of a matrix by rows and columns.
ghost use Rattle.std.specs.Prelude.{◌≡◌, ℕ, ◌+◌, ◌*◌, ◌^◌, ◌<◌, ◌≤◌, length};
ghost use Rattle.picks.specs.Indices.{index_count, indices_of, IndexBelow, AllInside};
ghost use Rattle.picks.specs.Picks.{picked, crossed, PickLeaves, CrossLeaves};

use crate::indices::{Index, Outside};
use crate::listed::Listed;
use crate::places::Integers;
use element::Element;

/// Writes the elements that the indices name, where all of them name one of the cells.
fn pick_inside<E: Element, I: Integers<E>>(
    cells: &[E],
    list: &Listed<'_, '_, E, I>,
    target: &mut [E],
)
    requires inside { AllInside (length cells.now) list.now }
    requires alike { length target.old ≡ length list.now }
    ensures { target.new ≡ picked E.Element.NULL cells.now list.now }
{
    for (k, cell) in target.iter_mut().enumerate() {
        *cell = cells[list.place(k, cells.len())];
    }
}

/// Writes the elements of the `have` cells from `from` on that the indices name, or tells the first index that names none.
pub fn pick<E: Element, I: Integers<E>>(
    table: &mut [E],
    from: usize,
    have: usize,
    integers: &I,
    index: Index,
    to: usize,
) -> Result<(), Outside>
    requires below { from + have ≤ to }
    requires indices { IndexBelow index to }
    requires seen { IndexBelow index (length (I.Integers.seen integers.now table.old)) }
    requires within { to + index_count index ≤ length table.old }
    ensures { PickLeaves E.Element.NULL table.old from have (indices_of index (I.Integers.seen integers.now table.old)) to result table.new }
{
    let (below, rest) = table.split_at_mut(to);
    let source = &below[..];
    let list = Listed::new(index, integers, source);
    list.check(have, 0)?;
    pick_inside(&source[from..from + have], &list, &mut rest[..list.count()]);
    Ok(())
}

/// Writes the elements of an r × s matrix where the rows and columns cross, where all indices name one.
fn cross_inside<E: Element, I: Integers<E>>(
    cells: &[E],
    r: usize,
    s: usize,
    rows: &Listed<'_, '_, E, I>,
    columns: &Listed<'_, '_, E, I>,
    target: &mut [E],
)
    requires matrix { length cells.now ≡ r * s }
    requires rows_inside { AllInside r rows.now }
    requires columns_inside { AllInside s columns.now }
    requires alike { length target.old ≡ length rows.now * length columns.now }
    ensures { target.new ≡ crossed E.Element.NULL s cells.now rows.now columns.now }
{
    let width = columns.count();
    // by the rows' numbers: where no column is named, there is nothing to cut into chunks
    for k in 0..rows.count() {
        let row = rows.place(k, r);
        let line = &mut target[k * width..(k + 1) * width];
        pick_inside(&cells[row * s..row * s + s], columns, line);
    }
}

/// Writes the elements of the r × s matrix from `from` on where the rows and columns cross, or tells the first index that names no row or column.
pub fn pick_matrix<E: Element, I: Integers<E>>(
    table: &mut [E],
    from: usize,
    r: usize,
    s: usize,
    integers: &I,
    rows: Index,
    columns: Index,
    to: usize,
) -> Result<(), Outside>
    requires below { from + r * s ≤ to }
    requires rows_below { IndexBelow rows to }
    requires columns_below { IndexBelow columns to }
    requires rows_seen { IndexBelow rows (length (I.Integers.seen integers.now table.old)) }
    requires columns_seen { IndexBelow columns (length (I.Integers.seen integers.now table.old)) }
    requires few { index_count rows + index_count columns < 2 ^ 64 }
    requires within { to + index_count rows * index_count columns ≤ length table.old }
    ensures { CrossLeaves E.Element.NULL table.old from r s (indices_of rows (I.Integers.seen integers.now table.old)) (indices_of columns (I.Integers.seen integers.now table.old)) to result table.new }
{
    let (below, rest) = table.split_at_mut(to);
    let source = &below[..];
    let rows = Listed::new(rows, integers, source);
    let columns = Listed::new(columns, integers, source);
    let height = rows.count();
    let width = columns.count();
    rows.check(r, 0)?;
    columns.check(s, height)?;
    let cells = &source[from..from + r * s];
    let target = &mut rest[..height * width];
    cross_inside(cells, r, s, &rows, &columns, target);
    Ok(())
}
