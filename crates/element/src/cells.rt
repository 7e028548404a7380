//! Vectors moved within a table: each function reads cells as they were, and writes those from `to` on.
ghost use Rattle.std.specs.Prelude.{◌≡◌, ℕ, ◌+◌, ◌≤◌, ◌++◌, reverse, length, replicate};
ghost use Rattle.element.specs.Cells.{put, cells, padded};

use crate::elements::Element;

// `from`, `n` and `to` stay apart here and in matrices: each call has them at hand; a struct would be built there only to be taken apart here.

/// Writes the n cells from `from` on as they are. The two ranges may overlap.
pub fn copy<E: Element>(table: &mut [E], from: usize, n: usize, to: usize)
    requires source { from + n ≤ length table.old }
    requires within { to + n ≤ length table.old }
    ensures { table.new ≡ put table.old to (cells table.old from n) }
{
    table.copy_within(from..from + n, to);
}

/// Writes one element into n cells.
pub fn spread<E: Element>(table: &mut [E], value: E, to: usize, n: usize)
    requires within { to + n ≤ length table.old }
    ensures { table.new ≡ put table.old to (replicate n value) }
{
    table[to..to + n].fill(value);
}

/// Writes the vector of `have` cells from `from` on, cut or padded with nulls to `want` cells.
pub fn resize<E: Element>(table: &mut [E], from: usize, have: usize, to: usize, want: usize)
    requires source { from + have ≤ length table.old }
    requires within { to + want ≤ length table.old }
    ensures { table.new ≡ put table.old to (padded E.Element.NULL want (cells table.old from have)) }
{
    let kept = have.min(want);
    copy(table, from, kept, to);
    spread(table, E::NULL, to + kept, want - kept);
}

/// Writes the vector backward.
pub fn reverse<E: Element>(table: &mut [E], from: usize, n: usize, to: usize)
    requires source { from + n ≤ length table.old }
    requires within { to + n ≤ length table.old }
    ensures { table.new ≡ put table.old to (reverse (cells table.old from n)) }
{
    copy(table, from, n, to);
    table[to..to + n].reverse();
}

/// Writes the m cells from `a` on, and behind them the n cells from `b` on.
pub fn join<E: Element>(table: &mut [E], a: usize, m: usize, b: usize, n: usize, to: usize)
    requires left { a + m ≤ to }
    requires right { b + n ≤ to }
    requires within { to + (m + n) ≤ length table.old }
    ensures { table.new ≡ put table.old to (cells table.old a m ++ cells table.old b n) }
{
    copy(table, a, m, to);
    copy(table, b, n, to + m);
}
