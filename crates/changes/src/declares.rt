//! Rows that declare a variable: nulls, or a value that fits its written type.
ghost use Rattle.std.specs.Prelude.{◌≡◌, ◌*◌, ◌<◌, true, IfOk, Some};
ghost use Rattle.types.specs.Types.{fits_in};
ghost use Rattle.meaning.specs.Changes.{nulls, declared};
ghost use Rattle.meaning.specs.Expressions.{by1, size_or};
ghost use Rattle.meaning.specs.Plans.{outcome};
ghost use Rattle.meaning.specs.States.{value_from};
ghost use Rattle.meaning.specs.Values.{lawful, within};
ghost use Rattle.meaning.specs.Works.{guarded, changed};
ghost use Rattle.changes.specs.Declares.{fills, begins, layout_for, room_for, declare_guard, Begun, beginning};
ghost use Rattle.tables.specs.Frames.{Covers, values, Fills};
ghost use Rattle.tables.specs.Lent.{held, Kept, Holds};

use crate::moves::unfold_padded;
use expressions::builds::size_or;
use expressions::lists::{is_orderly, list_in};
use fault::{Cause, Fault};
use meaning::{Layout, Place};
use rules::statements::can_take;
use tables::{Tables, View};
use types::{Shape, Size, Typing};

/// The layout of a variable of nulls, whose sizes are both written.
fn guard_nulls(place: Place, w: Typing) -> Result<Layout, Fault>
    ensures is { result ≡ guarded place (nulls w) }
    ensures within { IfOk result (λ f. within place.width f.r f.s ≡ true) }
{
    let layout = Layout {
        kind: w.kind,
        shape: w.shape,
        r: size_or(w.r, 0),
        s: size_or(w.s, 0),
    };
    place.guard(w.r.is_some() && w.s.is_some(), true, None, layout, true)
}

/// A variable of nulls.
pub fn declare_nulls(place: Place, w: Typing, tables: &mut Tables) -> Result<Layout, Fault>
    requires { Holds place tables.old }
    ensures filled { Fills place place.row (outcome place.width (nulls w)) tables.old result tables.new }
    ensures within { IfOk result (λ f. within place.width f.r f.s ≡ true) }
    ensures lent { Kept tables.old tables.new }
{
    let form = guard_nulls(place, w)?;
    let to = place.start_of(place.row);
    let n = form.r * form.s;
    tables.fill_nulls(form.kind, to, n);
    Ok(form)
}

/// Whether n is at most the written size, where one is written.
fn is_at_most(n: usize, size: Size) -> bool
    ensures { result ≡ fits_in (Some n) size }
{
    size.is_none_or(|m| n <= usize::from(m))
}

/// Whether the value is a scalar that fills a variable of the written type.
fn is_filling(w: Typing, y: Layout) -> bool
    ensures { result ≡ fills w y }
{
    !y.is(w.shape) && y.is(Shape::Scalar)
}

/// Whether the value may begin a variable of the written type. What a scalar fills has written sizes.
fn can_begin(w: Typing, y: Layout) -> bool
    ensures { result ≡ begins w y }
{
    can_take(w, y.typing()) && (!is_filling(w, y) || w.r.is_some() && w.s.is_some())
}

/// The layout of a variable whose value has so many columns: the written sizes, or else those of the value.
fn layout_for(w: Typing, y: Layout, columns: usize) -> Layout
    ensures { result ≡ layout_for w y columns }
{
    Layout {
        kind: w.kind,
        shape: w.shape,
        r: size_or(w.r, y.r),
        s: size_or(w.s, columns),
    }
}

/// Whether such a value is no longer than is written.
fn has_room(w: Typing, y: Layout, columns: usize) -> bool
    ensures { result ≡ room_for w y columns }
{
    is_at_most(y.r, w.r) && is_at_most(columns, w.s)
}

/// The layout of a variable of the written type, where it may begin with the value y, which lies at row a.
fn guard_declare(
    place: Place,
    w: Typing,
    a: u16,
    y: Layout,
    tables: &Tables,
) -> Result<Layout, Fault>
    requires before { a < place.row }
    requires lawful { lawful place.width y ≡ true }
    requires ample { Covers place tables.now.integers.now }
    ensures is { result ≡ declare_guard place tables.now.integers.now a w y }
    ensures within { IfOk result (λ f. within place.width f.r f.s ≡ true) }
{
    if !can_begin(w, y) {
        return Err(place.fault(Cause::NoRule, 0));
    }
    if y.is(w.shape) {
        let layout = layout_for(w, y, y.s);
        return place.guard(true, true, None, layout, has_room(w, y, y.s));
    }
    let list = list_in(tables, place, a, y);
    let count = list.count();
    let layout = layout_for(w, y, count);
    let agree = y.is(Shape::Scalar) || has_room(w, y, count);
    place.guard(true, is_orderly(list), Some(count), layout, agree)
}

/// Writes the value y of row a into the cells of the row: padded with nulls, a scalar into every cell, or the integers of an
/// interval with nulls behind them.
fn write_beginning(place: Place, w: Typing, a: u16, y: Layout, form: Layout, tables: &mut Tables)
    requires before { a < place.row }
    requires begun { Begun place.width tables.old.integers.now a w y form }
    requires ample { Holds place tables.old }
    ensures value { held tables.new ≡ changed w.kind (held tables.old) (place.row * place.width) (λ k T. beginning k w form (value_from place.width (held tables.old) a y)) }
    ensures lent { Kept tables.old tables.new }
{
    let from = place.start_of(a);
    let to = place.start_of(place.row);
    if y.is(w.shape) {
        tables.resize_matrix(w.kind, from, y.r, y.s, to, form.r, form.s);
    } else if y.is(Shape::Scalar) {
        tables.spread(w.kind, from, to, form.r * form.s);
    } else {
        unfold_padded(tables.integers, from, to, form.r * form.s);
    }
}

/// A variable of the written type that begins with the value of row a.
pub fn declare_row(view: &View, w: Typing, a: u16, tables: &mut Tables) -> Result<Layout, Fault>
    requires before { a < view.now.place.row }
    requires ample { Holds view.now.place tables.old }
    ensures filled { Fills view.now.place view.now.place.row (by1 view.now.place.width (values view.now tables.old) a (declared w)) tables.old result tables.new }
    ensures within { IfOk result (λ f. within view.now.place.width f.r f.s ≡ true) }
    ensures lent { Kept tables.old tables.new }
{
    let y = view.operand(a)?;
    let form = guard_declare(view.place, w, a, y, tables)?;
    write_beginning(view.place, w, a, y, form, tables);
    Ok(form)
}
