//! Matrices, stored row by row: cut, padded, stacked.
ghost use Rattle.std.specs.Prelude.{◌≡◌, ℕ, ◌+◌, ◌*◌, ◌≤◌, max, length};
ghost use Rattle.element.specs.Cells.{put, cells, rows_of};
ghost use Rattle.element.specs.Matrices.{resized, stacked};

use crate::cells::{resize, spread};
use crate::elements::Element;

/// Writes the r × s matrix from `from` on, cut or padded with nulls to `rows` × `columns`.
pub fn resize_matrix<E: Element>(
    table: &mut [E],
    from: usize,
    r: usize,
    s: usize,
    to: usize,
    rows: usize,
    columns: usize,
)
    requires below { from + r * s ≤ to }
    requires within { to + rows * columns ≤ length table.old }
    ensures { table.new ≡ put table.old to (resized E.Element.NULL rows columns (rows_of r s (cells table.old from (r * s)))) }
{
    let kept = r.min(rows);
    // by the row's number: a row may be 0 cells wide, and `chunks_exact_mut` refuses that
    for k in 0..kept {
        resize(table, from + k * s, s, to + k * columns, columns);
    }
    spread(table, E::NULL, to + kept * columns, (rows - kept) * columns);
}

/// Writes the r × s matrix from `a` on (a vector is a matrix of one row), and under it the vector of n cells from `b` on; the result is as wide as the wider one.
pub fn stack<E: Element>(
    table: &mut [E],
    a: usize,
    r: usize,
    s: usize,
    b: usize,
    n: usize,
    to: usize,
)
    requires upper { a + r * s ≤ to }
    requires lower { b + n ≤ to }
    requires within { to + (r + 1) * max s n ≤ length table.old }
    ensures { table.new ≡ put table.old to (stacked E.Element.NULL (max s n) (rows_of r s (cells table.old a (r * s))) (cells table.old b n)) }
{
    let width = s.max(n);
    resize_matrix(table, a, r, s, to, r, width);
    resize(table, b, n, to + r * width, width);
}
