//! Rows that pick elements of a vector.
ghost use Rattle.std.specs.Prelude.{◌≡◌, ◌<◌, true, IfOk};
ghost use Rattle.meaning.specs.Expressions.{by2, pick as pick_plan};
ghost use Rattle.meaning.specs.Values.{within};
ghost use Rattle.selections.specs.Choices.{pick_guard, pick_layout};
ghost use Rattle.tables.specs.Frames.{values, Makes};
ghost use Rattle.tables.specs.Lent.{Kept, Holds};

use expressions::answers::answer;
use expressions::lists::{is_orderly, list_in};
use fault::Fault;
use meaning::{Layout, Place};
use picks::Index;
use tables::{Tables, View};
use types::{Kind, Shape};

/// The layout of what a list of indices picks: an index that is a scalar picks a scalar.
fn pick_layout(kind: Kind, y: Layout, list: Index) -> Layout
    ensures { result ≡ pick_layout kind y list }
{
    Layout {
        kind,
        shape: if y.is(Shape::Scalar) {
            Shape::Scalar
        } else {
            Shape::Vector
        },
        r: 1,
        s: list.count(),
    }
}

/// Whether a value is a vector and another a list of its indices, which are in order and few.
fn guard_pick(place: Place, x: Layout, y: Layout, list: Index) -> Result<Layout, Fault>
    ensures is { result ≡ pick_guard place x y list }
    ensures within { IfOk result (λ f. within place.width f.r f.s ≡ true) }
{
    place.guard(
        x.typing().is(Shape::Vector) && y.typing().is_index(),
        is_orderly(list),
        None,
        pick_layout(x.kind, y, list),
        true,
    )
}

/// The elements of a vector that an index names, or each of several.
pub fn pick_row(view: &View, a: u16, b: u16, tables: &mut Tables) -> Result<Layout, Fault>
    requires wide { 1 < view.now.place.width }
    requires left { a < view.now.place.row }
    requires right { b < view.now.place.row }
    requires ample { Holds view.now.place tables.old }
    ensures made { Makes view.now.place (by2 view.now.place.width (values view.now tables.old) a b pick_plan) tables.old result tables.new }
    ensures lent { Kept tables.old tables.new }
{
    let place = view.place;
    let x = view.operand(a)?;
    let y = view.operand(b)?;
    let list = list_in(tables, place, b, y);
    let form = guard_pick(place, x, y, list)?;
    let from = place.start_of(a);
    let to = place.start_of(place.row);
    let picked = tables.pick(x.kind, from, x.s, list, to);
    answer(place, form, picked)
}
