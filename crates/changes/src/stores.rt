//! Rows that store elements into a variable, at indices that count from 1.
ghost use Rattle.std.specs.Prelude.{◌≡◌, ◌+◌, ◌*◌, ◌<◌, true, [], ◌∷◌, length, pos, IfOk, None, slice_index_or, slice_set};
ghost use Rattle.element.specs.Cells.{cells};
ghost use Rattle.picks.specs.Indices.{first_outside2, place_of};
ghost use Rattle.meaning.specs.Changes.{stored_at, stored_at_two};
ghost use Rattle.meaning.specs.Expressions.{by3};
ghost use Rattle.meaning.specs.Plans.{with};
ghost use Rattle.meaning.specs.Values.{null_of, lawful, within};
ghost use Rattle.meaning.specs.Works.{guards, changed, Chosen};
ghost use Rattle.changes.specs.Stores.{stores, stores_two, store_guard};
ghost use Rattle.tables.specs.Frames.{Covers, values, Fills};
ghost use Rattle.tables.specs.Lent.{held, Kept, Reach, Holds};

use expressions::answers::answer;
use expressions::lists::{is_orderly, list_in};
use expressions::operands::cells_of;
use fault::{Cause, Fault};
use meaning::{Layout, Place};
use picks::Outside;
use tables::{Tables, View};
use types::{Kind, Shape};

/// Whether a value may be stored at an index of a vector: a scalar, or at several places a vector.
fn can_store(x: Layout, y: Layout, z: Layout) -> bool
    ensures { result ≡ stores x y z }
{
    let (t, u, v) = (x.typing(), y.typing(), z.typing());
    t.is(Shape::Vector)
        && u.is_index()
        && v.is_of(x.kind)
        && (v.is(Shape::Scalar) || v.is(Shape::Vector) && !u.is(Shape::Scalar))
}

/// The layout of the variable x, where the value z may be stored at the index y, which lies at row b.
fn guard_store(
    place: Place,
    b: u16,
    x: Layout,
    y: Layout,
    z: Layout,
    tables: &Tables,
) -> Result<Layout, Fault>
    requires before { b < place.row }
    requires lawful { lawful place.width y ≡ true }
    requires ample { Covers place tables.now.integers.now }
    ensures is { result ≡ store_guard place tables.now.integers.now b x y z }
    ensures within { IfOk result (λ f. within place.width f.r f.s ≡ true) }
{
    if !can_store(x, y, z) {
        return Err(place.fault(Cause::NoRule, 0));
    }
    let index = list_in(tables, place, b, y);
    let count = index.count();
    let agree = z.is(Shape::Scalar) || count == z.s;
    place.guard(true, is_orderly(index), Some(count), x, agree)
}

/// Stores the value of row c into the vector v, at the indices that row b holds.
pub fn store_row(view: &View, v: u16, b: u16, c: u16, tables: &mut Tables) -> Result<Layout, Fault>
    requires index { b < view.now.place.row }
    requires value { c < view.now.place.row }
    requires under_index { v < b }
    requires under_value { v < c }
    requires ample { Holds view.now.place tables.old }
    ensures filled { Fills view.now.place v (by3 view.now.place.width (values view.now tables.old) v b c stored_at) tables.old result tables.new }
    ensures within { IfOk result (λ f. within view.now.place.width f.r f.s ≡ true) }
    ensures lent { Kept tables.old tables.new }
{
    let place = view.place;
    let x = view.operand(v)?;
    let y = view.operand(b)?;
    let z = view.operand(c)?;
    let form = guard_store(place, b, x, y, z, tables)?;
    let to = place.start_of(v);
    let index = list_in(tables, place, b, y);
    let values = cells_of(place, c, z);
    let stored = tables.store(form.kind, to, form.s, index, values);
    answer(place, form, stored)
}

/// Stores the element in the cell `from` into the r × s matrix from `to` on. The integers in the cells `row` and `column` name its place.
fn store_at_cells(
    kind: Kind,
    to: usize,
    r: usize,
    s: usize,
    row: usize,
    column: usize,
    from: usize,
    tables: &mut Tables,
) -> Result<(), Outside>
    requires row { row < length tables.old.integers.now }
    requires column { column < length tables.old.integers.now }
    requires from { Reach (from + 1) (held tables.old) }
    requires within { Reach (to + r * s) (held tables.old) }
    ensures value { Chosen (first_outside2 r s (slice_index_or tables.old.integers.now row (pos 0) ∷ []) (slice_index_or tables.old.integers.now column (pos 0) ∷ [])) (held tables.old) (changed kind (held tables.old) to (λ k T. slice_set (cells T to (r * s)) (place_of (slice_index_or tables.old.integers.now row (pos 0)) * s + place_of (slice_index_or tables.old.integers.now column (pos 0))) (slice_index_or T from (null_of k)))) result (held tables.new) }
    ensures lent { Kept tables.old tables.new }
{
    let (i, j) = (tables.integers[row], tables.integers[column]);
    tables.store_matrix(kind, to, r, s, i, j, from)
}

/// The layout of the matrix x, where the scalar w may be stored at row y and column z of it.
fn guard_store_two(
    place: Place,
    x: Layout,
    y: Layout,
    z: Layout,
    w: Layout,
) -> Result<Layout, Fault>
    ensures is { result ≡ guards place (stores_two x y z w) true None x true }
    ensures within { IfOk result (λ f. within place.width f.r f.s ≡ true) }
{
    let ruled = x.typing().is(Shape::Matrix)
        && y.typing().is_alone(Kind::Integer)
        && z.typing().is_alone(Kind::Integer)
        && w.typing().is_alone(x.kind);
    place.guard(ruled, true, None, x, true)
}

/// Stores the scalar of row d into the matrix v, at the row and the column that rows b and c hold.
pub fn store_two_row(
    view: &View,
    v: u16,
    b: u16,
    c: u16,
    d: u16,
    tables: &mut Tables,
) -> Result<Layout, Fault>
    requires row { b < view.now.place.row }
    requires column { c < view.now.place.row }
    requires value { d < view.now.place.row }
    requires before { v < view.now.place.row }
    requires ample { Holds view.now.place tables.old }
    ensures filled { Fills view.now.place v (with (values view.now tables.old v) (λ x. by3 view.now.place.width (values view.now tables.old) b c d (stored_at_two x))) tables.old result tables.new }
    ensures within { IfOk result (λ f. within view.now.place.width f.r f.s ≡ true) }
    ensures lent { Kept tables.old tables.new }
{
    let place = view.place;
    let x = view.operand(v)?;
    let y = view.operand(b)?;
    let z = view.operand(c)?;
    let w = view.operand(d)?;
    let form = guard_store_two(place, x, y, z, w)?;
    let to = place.start_of(v);
    let row = place.start_of(b);
    let column = place.start_of(c);
    let from = place.start_of(d);
    let stored = store_at_cells(form.kind, to, form.r, form.s, row, column, from, tables);
    answer(place, form, stored)
}
