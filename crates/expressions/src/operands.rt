//! Operands of rows that work element by element.
ghost use Rattle.std.specs.Prelude.{◌≡◌, true, IfOk};
ghost use Rattle.types.specs.declared.kinds.Shape.TheVariants.{Scalar};
ghost use Rattle.types.specs.Typings.{is};
ghost use Rattle.meaning.specs.Values.{within};
ghost use Rattle.expressions.specs.Pairs.{cells_of, pair_layout, pair_guard};

use element::operands::Operand;
use fault::Fault;
use meaning::{Layout, Place};
use types::{Kind, Shape};

/// The cells of the value at row a: one for each element, or that of a scalar for every one.
pub fn cells_of(place: Place, a: u16, x: Layout) -> Operand
    ensures { result ≡ cells_of place.width a x }
{
    let at = place.start_of(a);
    if x.is(Shape::Scalar) {
        Operand::Scalar(at)
    } else {
        Operand::Run(at)
    }
}

/// The layout of what comes of two values, element by element: a scalar takes that of the other.
fn pair_layout(kind: Kind, x: Layout, y: Layout) -> Layout
    ensures { result ≡ pair_layout kind x y }
{
    let wide = if x.is(Shape::Scalar) { y } else { x };
    Layout {
        kind,
        shape: wide.shape,
        r: wide.r,
        s: wide.s,
    }
}

/// The layout of what two values of one kind give, element by element, as elements of kind `to`.
pub fn guard_pair(place: Place, kind: Kind, to: Kind, x: Layout, y: Layout) -> Result<Layout, Fault>
    ensures is { result ≡ pair_guard place kind to x y }
    ensures within { IfOk result (λ f. within place.width f.r f.s ≡ true) }
{
    let (t, u) = (x.typing(), y.typing());
    let ruled = t.is_of(kind) && u.is_of(kind) && t.pairs(u);
    place.guard(
        ruled,
        true,
        None,
        pair_layout(to, x, y),
        x.matches_spread(y),
    )
}
