//! Values as lists: a vector or a scalar by its cells, an interval by its bounds.
ghost use Rattle.std.specs.Prelude.{◌≡◌, ◌+◌, ◌*◌, ◌<◌, length};
ghost use Rattle.expressions.specs.Lists.{list_at, orderly};

use meaning::{Layout, Place};
use picks::Index;
use tables::Tables;
use types::Shape;

/// The list that the value of layout x at row a stands for.
pub fn list_at(place: Place, a: u16, x: Layout, integers: &[i32]) -> Index
    requires { a * place.width + 1 < length integers.now }
    ensures { result ≡ list_at place.width integers.now a x }
{
    let at = place.start_of(a);
    if x.is(Shape::Interval) {
        Index::Interval {
            low: integers[at],
            high: integers[at + 1],
        }
    } else {
        Index::Cells { at, count: x.s }
    }
}

/// The same list, of a value in the lent tables.
pub fn list_in(tables: &Tables, place: Place, a: u16, x: Layout) -> Index
    requires { a * place.width + 1 < length tables.now.integers.now }
    ensures { result ≡ list_at place.width tables.now.integers.now a x }
{
    list_at(place, a, x, tables.shared().integers)
}

/// Whether its upper bound is not under its lower one; cells have no bounds.
pub fn is_orderly(list: Index) -> bool
    ensures { result ≡ orderly list }
{
    match list {
        Index::Cells { .. } => true,
        Index::Interval { low, high } => low <= high,
    }
}
