//! Cells moved to variables, which lie below what they take.
ghost use Rattle.std.specs.Prelude.{◌≡◌, ◌+◌, ◌-◌, ◌<◌, ◌≤◌, ◌++◌, length, replicate, pos, slice_index_or};
ghost use Rattle.element.specs.Cells.{put};
ghost use Rattle.picks.specs.Indices.{spanned, between};

use element::Element;
use element::cells::spread;
use picks::indices::span;
use picks::intervals::write_interval;

/// Writes the integers of the interval whose bounds are in the cell `from` and the next one.
pub fn unfold_interval(integers: &mut [i32], from: usize, to: usize)
    requires bounds { from + 1 < length integers.old }
    requires within { to + spanned (slice_index_or integers.old from (pos 0)) (slice_index_or integers.old (from + 1) (pos 0)) ≤ length integers.old }
    ensures { integers.new ≡ put integers.old to (between (slice_index_or integers.old from (pos 0)) (slice_index_or integers.old (from + 1) (pos 0))) }
{
    let (low, high) = (integers[from], integers[from + 1]);
    write_interval(integers, low, high, to);
}

/// Writes the integers of such an interval, and nulls behind them up to n cells.
pub fn unfold_padded(integers: &mut [i32], from: usize, to: usize, n: usize)
    requires bounds { from + 1 < length integers.old }
    requires few { spanned (slice_index_or integers.old from (pos 0)) (slice_index_or integers.old (from + 1) (pos 0)) ≤ n }
    requires within { to + n ≤ length integers.old }
    ensures { integers.new ≡ put integers.old to (between (slice_index_or integers.old from (pos 0)) (slice_index_or integers.old (from + 1) (pos 0)) ++ replicate (n - spanned (slice_index_or integers.old from (pos 0)) (slice_index_or integers.old (from + 1) (pos 0))) (pos 0)) }
{
    let count = span(integers[from], integers[from + 1]);
    unfold_interval(integers, from, to);
    spread(integers, 0, to + count, n - count);
}
