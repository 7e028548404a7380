//! Rows that multiply vectors or matrices.
ghost use Rattle.std.specs.Prelude.{◌≡◌, ◌+◌, ◌*◌, ◌<◌, ◌≤◌, true, [], ◌∷◌, length, IfOk, if◌then◌else◌};
ghost use Rattle.types.specs.declared.kinds.Shape.TheVariants.{Vector};
ghost use Rattle.types.specs.Typings.{is};
ghost use Rattle.element.specs.Cells.{cells};
ghost use Rattle.elementwise.specs.Products.{dot};
ghost use Rattle.elementwise.specs.Results.{collected, Wrote};
ghost use Rattle.meaning.specs.Expressions.{by2, multiplied};
ghost use Rattle.meaning.specs.Values.{area, known, within};
ghost use Rattle.expressions.specs.Products.{product_layout, multiplies, product_guard, product_cells};
ghost use Rattle.expressions.specs.Parts.{InIntegers};
ghost use Rattle.tables.specs.Frames.{Covers, values_in};

use arithmetic::faults::{ElementFault, at_row};
use elementwise::products::{dot_product, matrix_product};
use fault::Fault;
use meaning::{Layout, Place};
use tables::View;
use types::{Kind, Shape};

fn product_layout(x: Layout, y: Layout) -> Layout
    ensures { result ≡ product_layout x y }
{
    if x.is(Shape::Vector) {
        Layout::scalar(Kind::Integer)
    } else {
        Layout {
            kind: Kind::Integer,
            shape: Shape::Matrix,
            r: x.r,
            s: y.s,
        }
    }
}

fn can_multiply(x: Layout, y: Layout) -> bool
    ensures { result ≡ multiplies x y }
{
    let (t, u) = (x.typing(), y.typing());
    t.is_of(Kind::Integer)
        && u.is_of(Kind::Integer)
        && (t.is(Shape::Vector) && u.is(Shape::Vector)
            || t.is(Shape::Matrix) && u.is(Shape::Matrix))
}

/// How many elements of the right operand meet those of a row of the left one.
fn middle(x: Layout, y: Layout) -> usize
    ensures { result ≡ (if is Vector (known x) then y.s else y.r) }
{
    if x.is(Shape::Vector) { y.s } else { y.r }
}

fn guard_product(place: Place, x: Layout, y: Layout) -> Result<Layout, Fault>
    ensures is { result ≡ product_guard place x y }
    ensures within { IfOk result (λ f. within place.width f.r f.s ≡ true) }
{
    place.guard(
        can_multiply(x, y),
        true,
        None,
        product_layout(x, y),
        x.s == middle(x, y),
    )
}

/// Writes the dot product of n integers from `a` on and n from `b` on.
fn write_dot(
    integers: &mut [i32],
    a: usize,
    b: usize,
    n: usize,
    to: usize,
) -> Result<(), ElementFault>
    requires left { a + n ≤ length integers.old }
    requires right { b + n ≤ length integers.old }
    requires within { to < length integers.old }
    ensures { Wrote (collected 1 (dot (cells integers.old a n) (cells integers.old b n) ∷ [])) integers.old to 1 result integers.new }
{
    let sum = dot_product(integers, a, b, n)?;
    integers[to] = sum;
    Ok(())
}

/// Writes the product of the values from `a` and from `b` on, whose layouts and sizes fit together.
fn write_product(
    x: Layout,
    y: Layout,
    integers: &mut [i32],
    a: usize,
    b: usize,
    to: usize,
) -> Result<(), ElementFault>
    requires left { a + (if is Vector (known x) then x.s else x.r * x.s) ≤ to }
    requires right { b + (if is Vector (known x) then x.s else x.s * y.s) ≤ to }
    requires within { to + area (product_layout x y) ≤ length integers.old }
    ensures { Wrote (collected 1 (product_cells x y integers.old a b)) integers.old to (area (product_layout x y)) result integers.new }
{
    if x.is(Shape::Vector) {
        write_dot(integers, a, b, x.s, to)
    } else {
        matrix_product(integers, a, b, x.r, x.s, y.s, to)
    }
}

/// The dot product of vectors, or the product of matrices.
pub fn multiply_row(view: &View, a: u16, b: u16, integers: &mut [i32]) -> Result<Layout, Fault>
    requires left { a < view.now.place.row }
    requires right { b < view.now.place.row }
    requires ample { Covers view.now.place integers.old }
    ensures { InIntegers view.now.place (λ t. by2 view.now.place.width (values_in view.now t) a b multiplied) integers.old result integers.new }
{
    let place = view.place;
    let x = view.operand(a)?;
    let y = view.operand(b)?;
    let form = guard_product(place, x, y)?;
    let left = place.start_of(a);
    let right = place.start_of(b);
    let to = place.start_of(place.row);
    let worked = write_product(x, y, integers, left, right, to);
    at_row(worked, place.row, place.line)?;
    Ok(form)
}
