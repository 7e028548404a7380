//! The language's operators before one value, element by element.
ghost use Rattle.std.specs.Prelude.{◌≡◌, ℕ, ◌+◌, ◌≤◌, not as negation, map, length};
ghost use Rattle.arithmetic.specs.Exact.{negated};
ghost use Rattle.element.specs.Cells.{put, cells};
ghost use Rattle.elementwise.specs.Results.{collected, Wrote};

use crate::unary::{map, try_map};
use arithmetic::faults::ElementFault;
use arithmetic::integers::Negative;
use arithmetic::truths::Negation;

/// Writes the minus of n integers from `to` on, up to the first fault.
pub fn negate(table: &mut [i32], at: usize, to: usize, n: usize) -> Result<(), ElementFault>
    requires below { at + n ≤ to }
    requires within { to + n ≤ length table.old }
    ensures { Wrote (collected 1 (map negated (cells table.old at n))) table.old to n result table.new }
{
    let (source, rest) = table.split_at_mut(to);
    try_map(&source[at..at + n], &mut rest[..n], Negative)
}

/// Writes the opposites of n booleans from `to` on.
pub fn not(table: &mut [bool], at: usize, to: usize, n: usize)
    requires below { at + n ≤ to }
    requires within { to + n ≤ length table.old }
    ensures { table.new ≡ put table.old to (map negation (cells table.old at n)) }
{
    let (source, rest) = table.split_at_mut(to);
    map(&source[at..at + n], &mut rest[..n], Negation);
}
