//! Rows that build a value of others: joined, stacked, resized, cast.
ghost use Rattle.std.specs.Prelude.{◌≡◌, ◌+◌, ◌<◌, max, true, ◌&&◌, ◌||◌, IfOk, None};
ghost use Rattle.types.specs.declared.kinds.Shape.TheVariants.{Vector, Matrix};
ghost use Rattle.types.specs.Types.{is_known, exactly as exact_size};
ghost use Rattle.types.specs.Typings.{is, of, flat};
ghost use Rattle.rules.specs.Rules.{joins};
ghost use Rattle.meaning.specs.Expressions.{by1, by2, joined, stack as stacked, size_or, resized_to, cast_to};
ghost use Rattle.meaning.specs.Values.{known, layout_of, vector_of, within};
ghost use Rattle.meaning.specs.Works.{guards};
ghost use Rattle.tables.specs.Frames.{values, Makes};
ghost use Rattle.tables.specs.Lent.{Kept, Holds};

use fault::Fault;
use meaning::{Layout, Place};
use tables::{Tables, View};
use types::{Kind, Shape, Size};

fn is_row(x: Layout) -> bool
    ensures { result ≡ joins (known x) }
{
    x.typing().is(Shape::Scalar) || x.typing().is(Shape::Vector)
}

fn guard_join(place: Place, x: Layout, y: Layout) -> Result<Layout, Fault>
    requires left { x.s < 65536 }
    requires right { y.s < 65536 }
    ensures is { result ≡ guards place (of x.kind (known y) && (joins (known x) && joins (known y))) true None (vector_of x.kind (x.s + y.s)) true }
    ensures within { IfOk result (λ f. within place.width f.r f.s ≡ true) }
{
    let ruled = y.typing().is_of(x.kind) && is_row(x) && is_row(y);
    place.guard(ruled, true, None, Layout::vector(x.kind, x.s + y.s), true)
}

/// One vector or scalar after another.
pub fn join_row(view: &View, a: u16, b: u16, tables: &mut Tables) -> Result<Layout, Fault>
    requires left { a < view.now.place.row }
    requires right { b < view.now.place.row }
    requires ample { Holds view.now.place tables.old }
    ensures made { Makes view.now.place (by2 view.now.place.width (values view.now tables.old) a b joined) tables.old result tables.new }
    ensures lent { Kept tables.old tables.new }
{
    let place = view.place;
    let x = view.operand(a)?;
    let y = view.operand(b)?;
    let form = guard_join(place, x, y)?;
    let left = place.start_of(a);
    let right = place.start_of(b);
    let to = place.start_of(place.row);
    tables.join(x.kind, left, x.s, right, y.s, to);
    Ok(form)
}

fn guard_stack(place: Place, x: Layout, y: Layout) -> Result<Layout, Fault>
    requires { x.r < 65536 }
    ensures is { result ≡ guards place (of x.kind (known y) && ((is Vector (known x) || is Matrix (known x)) && is Vector (known y))) true None (layout_of x.kind Matrix (x.r + 1) (max x.s y.s)) true }
    ensures within { IfOk result (λ f. within place.width f.r f.s ≡ true) }
{
    let (t, u) = (x.typing(), y.typing());
    let ruled = u.is_of(x.kind)
        && (t.is(Shape::Vector) || t.is(Shape::Matrix))
        && u.is(Shape::Vector);
    let layout = Layout {
        kind: x.kind,
        shape: Shape::Matrix,
        r: x.r + 1,
        s: x.s.max(y.s),
    };
    place.guard(ruled, true, None, layout, true)
}

/// The rows of a vector or matrix, and a vector under them.
pub fn stack_row(view: &View, a: u16, b: u16, tables: &mut Tables) -> Result<Layout, Fault>
    requires left { a < view.now.place.row }
    requires right { b < view.now.place.row }
    requires ample { Holds view.now.place tables.old }
    ensures made { Makes view.now.place (by2 view.now.place.width (values view.now tables.old) a b stacked) tables.old result tables.new }
    ensures lent { Kept tables.old tables.new }
{
    let place = view.place;
    let x = view.operand(a)?;
    let y = view.operand(b)?;
    let form = guard_stack(place, x, y)?;
    let upper = place.start_of(a);
    let lower = place.start_of(b);
    let to = place.start_of(place.row);
    tables.stack(x.kind, upper, x.r, x.s, lower, y.s, to);
    Ok(form)
}

/// The written size, or n where none is written.
pub fn size_or(size: Size, n: usize) -> usize
    ensures { result ≡ size_or size n }
{
    size.map_or(n, usize::from)
}

fn guard_resize(place: Place, r: Size, s: Size, x: Layout) -> Result<Layout, Fault>
    ensures is { result ≡ guards place ((is Vector (known x) || is Matrix (known x)) && (is_known r && (is_known s && (is Matrix (known x) || exact_size 1 r)))) true None (layout_of x.kind x.shape (size_or r 0) (size_or s 0)) true }
    ensures within { IfOk result (λ f. within place.width f.r f.s ≡ true) }
{
    let t = x.typing();
    let ruled = (t.is(Shape::Vector) || t.is(Shape::Matrix))
        && r.is_some()
        && s.is_some()
        && (t.is(Shape::Matrix) || r == Some(1));
    let layout = Layout {
        r: size_or(r, 0),
        s: size_or(s, 0),
        ..x
    };
    place.guard(ruled, true, None, layout, true)
}

/// A vector or matrix, cut or padded with nulls to the written sizes.
pub fn resize_row(
    view: &View,
    a: u16,
    r: Size,
    s: Size,
    tables: &mut Tables,
) -> Result<Layout, Fault>
    requires before { a < view.now.place.row }
    requires ample { Holds view.now.place tables.old }
    ensures made { Makes view.now.place (by1 view.now.place.width (values view.now tables.old) a (resized_to r s)) tables.old result tables.new }
    ensures lent { Kept tables.old tables.new }
{
    let place = view.place;
    let x = view.operand(a)?;
    let form = guard_resize(place, r, s, x)?;
    let at = place.start_of(a);
    let to = place.start_of(place.row);
    tables.resize_matrix(x.kind, at, x.r, x.s, to, form.r, form.s);
    Ok(form)
}

fn guard_cast(place: Place, kind: Kind, x: Layout) -> Result<Layout, Fault>
    ensures is { result ≡ guards place (flat (known x)) true None (layout_of kind x.shape x.r x.s) true }
    ensures within { IfOk result (λ f. within place.width f.r f.s ≡ true) }
{
    place.guard(x.typing().is_flat(), true, None, Layout { kind, ..x }, true)
}

/// A value as another kind, element by element.
pub fn cast_row(view: &View, kind: Kind, a: u16, tables: &mut Tables) -> Result<Layout, Fault>
    requires before { a < view.now.place.row }
    requires ample { Holds view.now.place tables.old }
    ensures made { Makes view.now.place (by1 view.now.place.width (values view.now tables.old) a (cast_to kind)) tables.old result tables.new }
    ensures lent { Kept tables.old tables.new }
{
    let place = view.place;
    let x = view.operand(a)?;
    let form = guard_cast(place, kind, x)?;
    let at = place.start_of(a);
    let to = place.start_of(place.row);
    tables.cast(x.kind, kind, at, to, x.area(place.width));
    Ok(form)
}
