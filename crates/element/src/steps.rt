//! Every b-th element of a vector.
ghost use Rattle.std.specs.Prelude.{◌≡◌, ℕ, ◌+◌, ◌<◌, ◌≤◌, length};
ghost use Rattle.element.specs.Cells.{put, cells};
ghost use Rattle.element.specs.Steps.{step_count, stepped};

use crate::elements::Element;

/// How many elements `step_by` writes of n.
pub fn step_count(n: usize, step: usize) -> usize
    requires { 0 < step }
    ensures { result ≡ step_count n step }
{
    n.div_ceil(step)
}

/// Writes the first of the n cells from `from` on, the one `step` behind it, and so on.
pub fn step_by<E: Element>(table: &mut [E], from: usize, n: usize, step: usize, to: usize)
    requires some { 0 < step }
    requires below { from + n ≤ to }
    requires within { to + step_count n step ≤ length table.old }
    ensures { table.new ≡ put table.old to (stepped E.Element.NULL step (cells table.old from n)) }
{
    let (below, above) = table.split_at_mut(to);
    let target = &mut above[..step_count(n, step)];
    // tried as `zip` with `iter().step_by(step)`: no proof, since nothing is known of what a loop over `zip` wrote
    for (k, cell) in target.iter_mut().enumerate() {
        *cell = below[from + k * step];
    }
}
