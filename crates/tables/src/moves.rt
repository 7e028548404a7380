//! Cells moved within the table of a kind: each function reads cells below `to`, and writes those from `to` on.
ghost use Rattle.std.specs.Prelude.{◌≡◌, ◌+◌, ◌*◌, ◌^◌, ◌<◌, ◌≤◌, max, ◌++◌, reverse, length, replicate, slice_index_or};
ghost use Rattle.element.specs.Cells.{put, cells, rows_of};
ghost use Rattle.element.specs.Matrices.{resized, stacked};
ghost use Rattle.element.specs.Steps.{step_count, stepped};
ghost use Rattle.meaning.specs.Values.{null_of};
ghost use Rattle.meaning.specs.Works.{changed};
ghost use Rattle.tables.specs.Lent.{held, Kept, Reach};

use crate::lent::Tables;
use element::{Element, cells, matrices, steps};
use types::Kind;

/// Writes the element in the cell `from` into n cells of one table.
fn spread_cell<E: Element>(table: &mut [E], from: usize, to: usize, n: usize)
    requires some { from < length table.old }
    requires within { to + n ≤ length table.old }
    ensures { table.new ≡ put table.old to (replicate n (slice_index_or table.old from E.Element.NULL)) }
{
    let value = table[from];
    cells::spread(table, value, to, n);
}

/// Writes the null into n cells of one table.
fn spread_null<E: Element>(table: &mut [E], to: usize, n: usize)
    requires within { to + n ≤ length table.old }
    ensures { table.new ≡ put table.old to (replicate n E.Element.NULL) }
{
    cells::spread(table, E::NULL, to, n);
}

impl Tables<'_> {
    /// Writes the n cells from `from` on as they are.
    pub fn copy(&mut self, kind: Kind, from: usize, n: usize, to: usize)
        requires source { Reach (from + n) (held self.old) }
        requires within { Reach (to + n) (held self.old) }
        ensures value { held self.new ≡ changed kind (held self.old) to (λ k T. cells T from n) }
        ensures lent { Kept self.old self.new }
    {
        match kind {
            Kind::Boolean => cells::copy(self.booleans, from, n, to),
            Kind::Character => cells::copy(self.characters, from, n, to),
            Kind::Integer => cells::copy(self.integers, from, n, to),
        }
    }

    /// Writes the element in the cell `from` into n cells.
    pub fn spread(&mut self, kind: Kind, from: usize, to: usize, n: usize)
        requires from { Reach (from + 1) (held self.old) }
        requires within { Reach (to + n) (held self.old) }
        ensures value { held self.new ≡ changed kind (held self.old) to (λ k T. replicate n (slice_index_or T from (null_of k))) }
        ensures lent { Kept self.old self.new }
    {
        match kind {
            Kind::Boolean => spread_cell(self.booleans, from, to, n),
            Kind::Character => spread_cell(self.characters, from, to, n),
            Kind::Integer => spread_cell(self.integers, from, to, n),
        }
    }

    /// Writes the null of the kind into n cells.
    pub fn fill_nulls(&mut self, kind: Kind, to: usize, n: usize)
        requires within { Reach (to + n) (held self.old) }
        ensures value { held self.new ≡ changed kind (held self.old) to (λ k T. replicate n (null_of k)) }
        ensures lent { Kept self.old self.new }
    {
        match kind {
            Kind::Boolean => spread_null(self.booleans, to, n),
            Kind::Character => spread_null(self.characters, to, n),
            Kind::Integer => spread_null(self.integers, to, n),
        }
    }

    /// Writes the n cells from `from` on backward.
    pub fn reverse(&mut self, kind: Kind, from: usize, n: usize, to: usize)
        requires source { Reach (from + n) (held self.old) }
        requires within { Reach (to + n) (held self.old) }
        ensures value { held self.new ≡ changed kind (held self.old) to (λ k T. reverse (cells T from n)) }
        ensures lent { Kept self.old self.new }
    {
        match kind {
            Kind::Boolean => cells::reverse(self.booleans, from, n, to),
            Kind::Character => cells::reverse(self.characters, from, n, to),
            Kind::Integer => cells::reverse(self.integers, from, n, to),
        }
    }

    /// Writes the m cells from `a` on, and behind them the n cells from `b` on.
    pub fn join(&mut self, kind: Kind, a: usize, m: usize, b: usize, n: usize, to: usize)
        requires left { a + m ≤ to }
        requires right { b + n ≤ to }
        requires within { Reach (to + (m + n)) (held self.old) }
        ensures value { held self.new ≡ changed kind (held self.old) to (λ k T. cells T a m ++ cells T b n) }
        ensures lent { Kept self.old self.new }
    {
        match kind {
            Kind::Boolean => cells::join(self.booleans, a, m, b, n, to),
            Kind::Character => cells::join(self.characters, a, m, b, n, to),
            Kind::Integer => cells::join(self.integers, a, m, b, n, to),
        }
    }

    /// Writes the first of the n cells from `from` on, the one `step` behind it, and so on.
    pub fn step_by(&mut self, kind: Kind, from: usize, n: usize, step: usize, to: usize)
        requires some { 0 < step }
        requires fits { n + step < 2 ^ 64 }
        requires below { from + n ≤ to }
        requires within { Reach (to + step_count n step) (held self.old) }
        ensures value { held self.new ≡ changed kind (held self.old) to (λ k T. stepped (null_of k) step (cells T from n)) }
        ensures lent { Kept self.old self.new }
    {
        match kind {
            Kind::Boolean => steps::step_by(self.booleans, from, n, step, to),
            Kind::Character => steps::step_by(self.characters, from, n, step, to),
            Kind::Integer => steps::step_by(self.integers, from, n, step, to),
        }
    }

    /// Writes the r × s matrix from `from` on, cut or padded with nulls to `rows` × `columns`.
    pub fn resize_matrix(
        &mut self,
        kind: Kind,
        from: usize,
        r: usize,
        s: usize,
        to: usize,
        rows: usize,
        columns: usize,
    )
        requires below { from + r * s ≤ to }
        requires within { Reach (to + rows * columns) (held self.old) }
        ensures value { held self.new ≡ changed kind (held self.old) to (λ k T. resized (null_of k) rows columns (rows_of r s (cells T from (r * s)))) }
        ensures lent { Kept self.old self.new }
    {
        match kind {
            Kind::Boolean => matrices::resize_matrix(self.booleans, from, r, s, to, rows, columns),
            Kind::Character => matrices::resize_matrix(
                self.characters,
                from,
                r,
                s,
                to,
                rows,
                columns,
            ),
            Kind::Integer => matrices::resize_matrix(self.integers, from, r, s, to, rows, columns),
        }
    }

    /// Writes the r × s matrix from `a` on (a vector is a matrix of one row), and under it the vector of n cells from `b` on; the result is as wide as the wider one.
    pub fn stack(&mut self, kind: Kind, a: usize, r: usize, s: usize, b: usize, n: usize, to: usize)
        requires upper { a + r * s ≤ to }
        requires lower { b + n ≤ to }
        requires within { Reach (to + (r + 1) * max s n) (held self.old) }
        ensures value { held self.new ≡ changed kind (held self.old) to (λ k T. stacked (null_of k) (max s n) (rows_of r s (cells T a (r * s))) (cells T b n)) }
        ensures lent { Kept self.old self.new }
    {
        match kind {
            Kind::Boolean => matrices::stack(self.booleans, a, r, s, b, n, to),
            Kind::Character => matrices::stack(self.characters, a, r, s, b, n, to),
            Kind::Integer => matrices::stack(self.integers, a, r, s, b, n, to),
        }
    }
}
