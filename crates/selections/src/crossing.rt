//! Rows that pick elements of a matrix.
ghost use Rattle.std.specs.Prelude.{◌≡◌, ◌<◌, true, IfOk};
ghost use Rattle.meaning.specs.Expressions.{by3, cross_shape, pick_two};
ghost use Rattle.meaning.specs.Values.{within};
ghost use Rattle.selections.specs.Choices.{cross_guard, cross_layout};
ghost use Rattle.tables.specs.Frames.{values, Makes};
ghost use Rattle.tables.specs.Lent.{Kept, Holds};

use expressions::answers::answer;
use expressions::lists::{is_orderly, list_in};
use fault::Fault;
use meaning::{Layout, Place};
use picks::Index;
use tables::{Tables, View};
use types::{Kind, Shape};

/// The shape of what is picked: an index that is a scalar, of a row or of a column, drops a dimension.
fn cross_shape(row: bool, column: bool) -> Shape
    ensures { result ≡ cross_shape row column }
{
    match (row, column) {
        (true, true) => Shape::Scalar,
        (true, false) | (false, true) => Shape::Vector,
        (false, false) => Shape::Matrix,
    }
}

/// The layout of what is picked of a matrix where the rows that y names cross the columns that z names.
fn cross_layout(kind: Kind, y: Layout, z: Layout, rows: Index, columns: Index) -> Layout
    ensures { result ≡ cross_layout kind y z rows columns }
{
    let row = y.is(Shape::Scalar);
    let column = z.is(Shape::Scalar);
    let shape = cross_shape(row, column);
    if column {
        Layout {
            kind,
            shape,
            r: 1,
            s: rows.count(),
        }
    } else {
        Layout {
            kind,
            shape,
            r: rows.count(),
            s: columns.count(),
        }
    }
}

/// Whether a value is a matrix and two others are lists of indices, which are in order and few.
fn guard_cross(
    place: Place,
    x: Layout,
    y: Layout,
    z: Layout,
    rows: Index,
    columns: Index,
) -> Result<Layout, Fault>
    ensures is { result ≡ cross_guard place x y z rows columns }
    ensures within { IfOk result (λ f. within place.width f.r f.s ≡ true) }
{
    place.guard(
        x.typing().is(Shape::Matrix) && y.typing().is_index() && z.typing().is_index(),
        is_orderly(rows) && is_orderly(columns),
        None,
        cross_layout(x.kind, y, z, rows, columns),
        true,
    )
}

/// The elements of a matrix where the rows that one index names cross the columns that another names.
pub fn pick_two_row(
    view: &View,
    a: u16,
    b: u16,
    c: u16,
    tables: &mut Tables,
) -> Result<Layout, Fault>
    requires wide { 1 < view.now.place.width }
    requires whole { a < view.now.place.row }
    requires row { b < view.now.place.row }
    requires column { c < view.now.place.row }
    requires ample { Holds view.now.place tables.old }
    ensures made { Makes view.now.place (by3 view.now.place.width (values view.now tables.old) a b c pick_two) tables.old result tables.new }
    ensures lent { Kept tables.old tables.new }
{
    let place = view.place;
    let x = view.operand(a)?;
    let y = view.operand(b)?;
    let z = view.operand(c)?;
    let rows = list_in(tables, place, b, y);
    let columns = list_in(tables, place, c, z);
    let form = guard_cross(place, x, y, z, rows, columns)?;
    let from = place.start_of(a);
    let to = place.start_of(place.row);
    let picked = tables.pick_matrix(x.kind, from, x.r, x.s, rows, columns, to);
    answer(place, form, picked)
}
