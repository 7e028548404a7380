//! Rows of arithmetic, orders and logic, element by element.
ghost use Rattle.std.specs.Prelude.{◌<◌, ◌≤◌, ◌*◌, length};
ghost use Rattle.meaning.specs.Expressions.{by2, calculated, compared, decided_by};
ghost use Rattle.expressions.specs.Parts.{InIntegers, InBooleans, OfIntegers};
ghost use Rattle.tables.specs.Frames.{Covers, values_in};

use crate::operands::{cells_of, guard_pair};
use arithmetic::faults::at_row;
use arithmetic::integers::Arithmetic;
use arithmetic::truths::{Logic, Order};
use elementwise::infix::{calculate, compare, decide};
use fault::Fault;
use meaning::Layout;
use tables::View;
use types::Kind;

/// A row of arithmetic.
pub fn calculate_row(
    view: &View,
    op: Arithmetic,
    a: u16,
    b: u16,
    integers: &mut [i32],
) -> Result<Layout, Fault>
    requires left { a < view.now.place.row }
    requires right { b < view.now.place.row }
    requires ample { Covers view.now.place integers.old }
    ensures { InIntegers view.now.place (λ t. by2 view.now.place.width (values_in view.now t) a b (calculated op)) integers.old result integers.new }
{
    let place = view.place;
    let x = view.operand(a)?;
    let y = view.operand(b)?;
    let form = guard_pair(place, Kind::Integer, Kind::Integer, x, y)?;
    let left = cells_of(place, a, x);
    let right = cells_of(place, b, y);
    let to = place.start_of(place.row);
    let worked = calculate(integers, op, left, right, to, form.r * form.s);
    at_row(worked, place.row, place.line)?;
    Ok(form)
}

/// A row that orders integers.
pub fn compare_row(
    view: &View,
    op: Order,
    a: u16,
    b: u16,
    integers: &[i32],
    booleans: &mut [bool],
) -> Result<Layout, Fault>
    requires left { a < view.now.place.row }
    requires right { b < view.now.place.row }
    requires integers { view.now.place.row * view.now.place.width ≤ length integers.now }
    requires ample { Covers view.now.place booleans.old }
    ensures { OfIntegers view.now.place (λ t. by2 view.now.place.width (values_in view.now t) a b (compared op)) integers.now booleans.old result booleans.new }
{
    let place = view.place;
    let x = view.operand(a)?;
    let y = view.operand(b)?;
    let form = guard_pair(place, Kind::Integer, Kind::Boolean, x, y)?;
    let left = cells_of(place, a, x);
    let right = cells_of(place, b, y);
    let to = place.start_of(place.row);
    compare(integers, booleans, op, left, right, to, form.r * form.s);
    Ok(form)
}

/// A row that joins booleans. Both operands are worked, whatever the first is.
pub fn decide_row(
    view: &View,
    op: Logic,
    a: u16,
    b: u16,
    booleans: &mut [bool],
) -> Result<Layout, Fault>
    requires left { a < view.now.place.row }
    requires right { b < view.now.place.row }
    requires ample { Covers view.now.place booleans.old }
    ensures { InBooleans view.now.place (λ t. by2 view.now.place.width (values_in view.now t) a b (decided_by op)) booleans.old result booleans.new }
{
    let place = view.place;
    let x = view.operand(a)?;
    let y = view.operand(b)?;
    let form = guard_pair(place, Kind::Boolean, Kind::Boolean, x, y)?;
    let left = cells_of(place, a, x);
    let right = cells_of(place, b, y);
    let to = place.start_of(place.row);
    decide(booleans, op, left, right, to, form.r * form.s);
    Ok(form)
}
