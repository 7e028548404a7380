//! Casts of a value to another kind, element by element.
ghost use Rattle.std.specs.Prelude.{◌≡◌, ◌+◌, ◌≤◌, map, length};
ghost use Rattle.element.specs.Cells.{put, cells};

use crate::unary::map;
use arithmetic::casts::{Cast, CastTo};
use element::Element;

/// Writes n cells of one table into another, from `to` on, each cast to the kind of that table.
/// (To its own kind a value is copied: `element::cells::copy`.)
pub fn cast<S: Element + CastTo<E>, E: Element>(
    source: &[S],
    table: &mut [E],
    at: usize,
    to: usize,
    n: usize,
)
    requires below { at + n ≤ length source.now }
    requires within { to + n ≤ length table.old }
    ensures { table.new ≡ put table.old to (map S.CastTo.casts (cells source.now at n)) }
{
    map(&source[at..at + n], &mut table[to..to + n], Cast);
}
