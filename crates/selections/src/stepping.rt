//! Rows that take every so many elements of a vector or an interval.
ghost use Rattle.std.specs.Prelude.{◌≡◌, ◌+◌, ◌^◌, ◌<◌, ◌≤◌, true, length, pos, IfOk, slice_index_or};
ghost use Rattle.element.specs.Steps.{step_count};
ghost use Rattle.picks.specs.Indices.{amount, index_count, IndexBelow};
ghost use Rattle.meaning.specs.Expressions.{by2, stepped_by};
ghost use Rattle.meaning.specs.Values.{within};
ghost use Rattle.selections.specs.Strides.{strides, step_guard, stepped_in};
ghost use Rattle.tables.specs.Frames.{values, Makes};
ghost use Rattle.tables.specs.Lent.{held, Kept, Reach, Holds};

use element::steps::step_count;
use expressions::lists::{is_orderly, list_in};
use fault::Fault;
use meaning::{Layout, Place};
use picks::Index;
use picks::indices::span;
use picks::intervals::step_interval;
use tables::{Tables, View};
use types::{Kind, Shape};

/// The step that the cell `at` holds, and 0 for a negative one.
fn step_at(tables: &Tables, at: usize) -> usize
    requires { at < length tables.now.integers.now }
    ensures is { result ≡ amount (slice_index_or tables.now.integers.now at (pos 0)) }
    ensures small { result < 2 ^ 32 }
{
    usize::try_from(tables.integers[at]).unwrap_or(0)
}

/// How many elements a list has: at most 2^32, where its cells are among the first so many.
// `Index::count` with a bound, which only lists of such cells have.
fn count_of(list: Index) -> usize
    requires { IndexBelow list (2 ^ 32) }
    ensures is { result ≡ index_count list }
    ensures few { result ≤ 2 ^ 32 }
{
    list.count()
}

/// How many of n elements a step meets; none where it is under 1.
fn strides_of(n: usize, step: usize) -> usize
    requires many { n ≤ 2 ^ 32 }
    requires small { step < 2 ^ 32 }
    ensures { result ≡ strides n step }
{
    if 1 <= step { step_count(n, step) } else { 0 }
}

/// Whether a value is a vector or an interval and another a step, which is at least 1 and meets few elements.
fn guard_step(place: Place, x: Layout, y: Layout, list: Index, step: usize) -> Result<Layout, Fault>
    requires below { IndexBelow list (2 ^ 32) }
    requires small { step < 2 ^ 32 }
    ensures is { result ≡ step_guard place x y list step }
    ensures within { IfOk result (λ f. within place.width f.r f.s ≡ true) }
{
    let t = x.typing();
    place.guard(
        (t.is(Shape::Vector) || t.is(Shape::Interval)) && y.typing().is_alone(Kind::Integer),
        is_orderly(list) && 1 <= step,
        None,
        Layout::vector(x.kind, strides_of(count_of(list), step)),
        true,
    )
}

/// Writes the first element of a list and every `step`-th after it.
fn write_steps(kind: Kind, list: Index, step: usize, to: usize, tables: &mut Tables)
    requires some { 0 < step }
    requires small { step < 2 ^ 32 }
    requires below { IndexBelow list to }
    requires near { to < 2 ^ 32 }
    requires within { Reach (to + step_count (index_count list) step) (held tables.old) }
    ensures value { held tables.new ≡ stepped_in kind (held tables.old) to list step }
    ensures lent { Kept tables.old tables.new }
{
    match list {
        Index::Cells { at, count } => {
            tables.step_by(kind, at, count, step, to);
        }
        Index::Interval { low, high } => {
            step_interval(tables.integers, low, high, step, to);
        }
    }
}

/// The first element of a vector or an interval, and every so many after it, as a vector.
pub fn step_row(view: &View, a: u16, b: u16, tables: &mut Tables) -> Result<Layout, Fault>
    requires wide { 1 < view.now.place.width }
    requires left { a < view.now.place.row }
    requires right { b < view.now.place.row }
    requires ample { Holds view.now.place tables.old }
    ensures made { Makes view.now.place (by2 view.now.place.width (values view.now tables.old) a b stepped_by) tables.old result tables.new }
    ensures lent { Kept tables.old tables.new }
{
    let place = view.place;
    let x = view.operand(a)?;
    let y = view.operand(b)?;
    let list = list_in(tables, place, a, x);
    let step = step_at(tables, place.start_of(b));
    let form = guard_step(place, x, y, list, step)?;
    let to = place.start_of(place.row);
    write_steps(x.kind, list, step, to, tables);
    Ok(form)
}
