//! Rows that make integers of what slips and single cells tell: intervals, sizes, the state of the stream.
ghost use Rattle.std.specs.Prelude.{◌≡◌, ◌<◌, true, ◌&&◌, [], ◌∷◌, length, pos, IfOk, None, int_le, slice_index_or};
ghost use Rattle.types.specs.declared.kinds.Kind.TheVariants.{Integer};
ghost use Rattle.types.specs.Typings.{alone, is};
ghost use Rattle.instruction.specs.declared.instructions.Measure.TheVariants.{Length, Rows, Columns};
ghost use Rattle.element.specs.Cells.{put};
ghost use Rattle.meaning.specs.Expressions.{by1, by2, interval, measured, streamed};
ghost use Rattle.meaning.specs.Plans.{outcome};
ghost use Rattle.meaning.specs.Values.{known, scalar_of, within};
ghost use Rattle.meaning.specs.Works.{guards};
ghost use Rattle.expressions.specs.Parts.{InIntegers};
ghost use Rattle.tables.specs.Frames.{Covers, values_in};

use element::cells::join;
use fault::Fault;
use meaning::{Layout, Place};
use source::StreamState;
use tables::View;
use types::{Kind, Shape};

fn are_bounds(x: Layout, y: Layout) -> bool
    ensures { result ≡ alone Integer (known x) && alone Integer (known y) }
{
    x.typing().is_alone(Kind::Integer) && y.typing().is_alone(Kind::Integer)
}

/// Whether the integer at `a` is not above the one at `b`.
fn is_upward(integers: &[i32], a: usize, b: usize) -> bool
    requires left { a < length integers.now }
    requires right { b < length integers.now }
    ensures { result ≡ int_le (slice_index_or integers.now a (pos 0)) (slice_index_or integers.now b (pos 0)) }
{
    integers[a] <= integers[b]
}

/// Writes a size as an integer.
fn write_size(integers: &mut [i32], n: usize, to: usize)
    requires few { n < 65536 }
    requires within { to < length integers.old }
    ensures { integers.new ≡ put integers.old to (pos n ∷ []) }
{
    integers[to] = n as i32;
}

/// The interval from one integer to another.
pub fn interval_row(view: &View, a: u16, b: u16, integers: &mut [i32]) -> Result<Layout, Fault>
    requires wide { 1 < view.now.place.width }
    requires left { a < view.now.place.row }
    requires right { b < view.now.place.row }
    requires ample { Covers view.now.place integers.old }
    ensures { InIntegers view.now.place (λ t. by2 view.now.place.width (values_in view.now t) a b interval) integers.old result integers.new }
{
    let place = view.place;
    let x = view.operand(a)?;
    let y = view.operand(b)?;
    let low = place.start_of(a);
    let high = place.start_of(b);
    let bounds = Layout {
        kind: Kind::Integer,
        shape: Shape::Interval,
        r: 1,
        s: 2,
    };
    let form = place.guard(
        are_bounds(x, y),
        is_upward(integers, low, high),
        None,
        bounds,
        true,
    )?;
    join(integers, low, 1, high, 1, place.start_of(place.row));
    Ok(form)
}

/// Whether a value has what is measured: length of a vector, rows and columns of a matrix.
fn guard_measure(place: Place, shape: Shape, x: Layout) -> Result<Layout, Fault>
    ensures is { result ≡ guards place (is shape (known x)) true None (scalar_of Integer) true }
    ensures within { IfOk result (λ f. within place.width f.r f.s ≡ true) }
{
    place.guard(
        x.typing().is(shape),
        true,
        None,
        Layout::scalar(Kind::Integer),
        true,
    )
}

// The three differ in a shape and a field: one function would take both, and a clause that ties them to what is asked.
/// The length of a vector.
pub fn length_row(view: &View, a: u16, integers: &mut [i32]) -> Result<Layout, Fault>
    requires ample { Covers view.now.place integers.old }
    ensures { InIntegers view.now.place (λ t. by1 view.now.place.width (values_in view.now t) a (measured Length)) integers.old result integers.new }
{
    let place = view.place;
    let x = view.operand(a)?;
    let form = guard_measure(place, Shape::Vector, x)?;
    write_size(integers, x.s, place.start_of(place.row));
    Ok(form)
}

/// How many rows a matrix has.
pub fn rows_row(view: &View, a: u16, integers: &mut [i32]) -> Result<Layout, Fault>
    requires ample { Covers view.now.place integers.old }
    ensures { InIntegers view.now.place (λ t. by1 view.now.place.width (values_in view.now t) a (measured Rows)) integers.old result integers.new }
{
    let place = view.place;
    let x = view.operand(a)?;
    let form = guard_measure(place, Shape::Matrix, x)?;
    write_size(integers, x.r, place.start_of(place.row));
    Ok(form)
}

/// How many columns a matrix has.
pub fn columns_row(view: &View, a: u16, integers: &mut [i32]) -> Result<Layout, Fault>
    requires ample { Covers view.now.place integers.old }
    ensures { InIntegers view.now.place (λ t. by1 view.now.place.width (values_in view.now t) a (measured Columns)) integers.old result integers.new }
{
    let place = view.place;
    let x = view.operand(a)?;
    let form = guard_measure(place, Shape::Matrix, x)?;
    write_size(integers, x.s, place.start_of(place.row));
    Ok(form)
}

/// How the last read went.
pub fn state_row(place: Place, state: StreamState, integers: &mut [i32]) -> Result<Layout, Fault>
    requires ample { Covers place integers.old }
    ensures { InIntegers place (λ t. outcome place.width (streamed state)) integers.old result integers.new }
{
    let form = place.guard(true, true, None, Layout::scalar(Kind::Integer), true)?;
    write_size(
        integers,
        usize::from(state.number()),
        place.start_of(place.row),
    );
    Ok(form)
}
