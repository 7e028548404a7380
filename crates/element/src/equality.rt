//! Whether runs of cells hold the same elements.
ghost use Rattle.std.specs.Prelude.{◌≡◌, ℕ, ◌+◌, ◌≤◌, length, replicate, Decides};
ghost use Rattle.element.specs.Cells.{cells};

use crate::elements::Element;

/// Whether the n cells from `a` on hold what the n cells from `b` on hold.
#[tactic(auto, using(crate::proofs::Comparing::same_parts))]
pub fn equal<E: Element>(table: &[E], a: usize, b: usize, n: usize) -> bool
    requires left { a + n ≤ length table.now }
    requires right { b + n ≤ length table.now }
    ensures { Decides result (cells table.now a n ≡ cells table.now b n) }
{
    table[a..a + n] == table[b..b + n]
}

/// Whether each of the n cells from `at` on holds the element.
pub fn equal_throughout<E: Element>(table: &[E], at: usize, n: usize, value: E) -> bool
    requires within { at + n ≤ length table.now }
    ensures { Decides result (cells table.now at n ≡ replicate n value) }
{
    table[at..at + n].iter().all(|x| *x == value)
}
