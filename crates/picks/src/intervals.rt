//! Intervals that stand for vectors: their integers written into cells.
ghost use Rattle.std.specs.Prelude.{◌≡◌, ◌+◌, ◌^◌, ◌<◌, ◌≤◌, length, pos};
ghost use Rattle.element.specs.Cells.{put};
ghost use Rattle.element.specs.Steps.{step_count, stepped};
ghost use Rattle.picks.specs.Indices.{spanned, between};

use crate::indices::{nth_between, span};
use element::steps::step_count;

/// Writes the integers from `low` to `high`.
pub fn write_interval(table: &mut [i32], low: i32, high: i32, to: usize)
    requires { to + spanned low high ≤ length table.old }
    ensures { table.new ≡ put table.old to (between low high) }
{
    step_interval(table, low, high, 1, to);
}

/// Writes every `step`-th of the integers from `low` to `high`, from the first on.
pub fn step_interval(table: &mut [i32], low: i32, high: i32, step: usize, to: usize)
    requires some { 0 < step }
    requires fits { step < 2 ^ 32 }
    requires within { to + step_count (spanned low high) step ≤ length table.old }
    ensures { table.new ≡ put table.old to (stepped (pos 0) step (between low high)) }
{
    let target = &mut table[to..to + step_count(span(low, high), step)];
    for (k, cell) in target.iter_mut().enumerate() {
        *cell = nth_between(low, high, k * step);
    }
}
