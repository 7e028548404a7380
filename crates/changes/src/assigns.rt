//! Rows that assign: a variable takes a value of its own sizes.
ghost use Rattle.std.specs.Prelude.{◌≡◌, ◌*◌, ◌<◌, true, IfOk};
ghost use Rattle.meaning.specs.Changes.{assigned};
ghost use Rattle.meaning.specs.Expressions.{by2};
ghost use Rattle.meaning.specs.States.{value_from};
ghost use Rattle.meaning.specs.Values.{lawful, within};
ghost use Rattle.meaning.specs.Works.{changed};
ghost use Rattle.changes.specs.Assigns.{assign_guard, giving, Given};
ghost use Rattle.tables.specs.Frames.{Covers, values, Fills};
ghost use Rattle.tables.specs.Lent.{held, Kept, Holds};

use crate::moves::unfold_interval;
use expressions::lists::{is_orderly, list_in};
use fault::{Cause, Fault};
use meaning::{Layout, Place};
use rules::statements::can_take;
use tables::{Tables, View};
use types::Shape;

/// The layout of the variable x, where it may take the value y, which lies at row a.
fn guard_assign(
    place: Place,
    a: u16,
    x: Layout,
    y: Layout,
    tables: &Tables,
) -> Result<Layout, Fault>
    requires before { a < place.row }
    requires lawful { lawful place.width y ≡ true }
    requires ample { Covers place tables.now.integers.now }
    ensures is { result ≡ assign_guard place tables.now.integers.now a x y }
    ensures within { IfOk result (λ f. within place.width f.r f.s ≡ true) }
{
    if !can_take(x.typing(), y.typing()) {
        return Err(place.fault(Cause::NoRule, 0));
    }
    if y.is(x.shape) {
        return place.guard(true, true, None, x, x.matches(y));
    }
    let list = list_in(tables, place, a, y);
    let count = list.count();
    let agree = y.is(Shape::Scalar) || count == x.s;
    place.guard(true, is_orderly(list), Some(count), x, agree)
}

/// Writes the value y of row a into the variable x of row v: its elements, a scalar into every cell, or the integers of an interval.
fn write_value(place: Place, v: u16, a: u16, x: Layout, y: Layout, tables: &mut Tables)
    requires before { a < place.row }
    requires under { v < a }
    requires given { Given place.width tables.old.integers.now a x y }
    requires ample { Holds place tables.old }
    ensures value { held tables.new ≡ changed x.kind (held tables.old) (v * place.width) (λ k T. giving k x (value_from place.width (held tables.old) a y)) }
    ensures lent { Kept tables.old tables.new }
{
    let from = place.start_of(a);
    let to = place.start_of(v);
    let n = x.area(place.width);
    if y.is(x.shape) {
        tables.copy(x.kind, from, n, to);
    } else if y.is(Shape::Scalar) {
        tables.spread(x.kind, from, to, n);
    } else {
        unfold_interval(tables.integers, from, to);
    }
}

/// Assigns the value of row a to the variable v.
pub fn assign_row(view: &View, v: u16, a: u16, tables: &mut Tables) -> Result<Layout, Fault>
    requires before { a < view.now.place.row }
    requires under { v < a }
    requires ample { Holds view.now.place tables.old }
    ensures filled { Fills view.now.place v (by2 view.now.place.width (values view.now tables.old) v a assigned) tables.old result tables.new }
    ensures within { IfOk result (λ f. within view.now.place.width f.r f.s ≡ true) }
    ensures lent { Kept tables.old tables.new }
{
    let x = view.operand(v)?;
    let y = view.operand(a)?;
    let form = guard_assign(view.place, a, x, y, tables)?;
    write_value(view.place, v, a, x, y, tables);
    Ok(form)
}
