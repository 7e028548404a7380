//! Operators of two elements along two operands.
ghost use Rattle.std.specs.Prelude.{◌≡◌, ℕ, ◌<◌, ◌≤◌, length, slice_index_or};
ghost use Rattle.element.specs.Operands.{place_of, end_of, along};
ghost use Rattle.elementwise.specs.Results.{map2, collected, Made};

use crate::rules::{Rule, make, try_make};
use arithmetic::faults::{ArithmeticFault, ElementFault};
use arithmetic::operators::Operator;
use element::Element;
use element::operands::Operand;

/// An operator and its operands.
#[derive(Clone, Copy)]
pub struct Between<F> {
    pub op: F,
    pub a: Operand,
    pub b: Operand,
}

impl<X: Element, Y, F: Operator<X, Y>> Rule<X, Y> for Between<F> {
    ghost can = { λ s source k. (place_of s.a k < length source) × (place_of s.b k < length source) };

    ghost gives = { λ s source k. F.Operator.gives s.op (slice_index_or source (place_of s.a k) X.Element.NULL) (slice_index_or source (place_of s.b k) X.Element.NULL) };

    fn cell(&self, source: &[X], k: usize) -> Y {
        let x = source[self.a.place(k)];
        let y = source[self.b.place(k)];
        self.op.apply(x, y)
    }
}

/// Writes what an operator gives along two operands.
pub fn combine<S: Element, E: Element, F: Operator<S, E> + Copy>(
    source: &[S],
    target: &mut [E],
    op: F,
    a: Operand,
    b: Operand,
)
    requires left { end_of a (length target.old) ≤ length source.now }
    requires right { end_of b (length target.old) ≤ length source.now }
    ensures { target.new ≡ map2 (F.Operator.gives op) (along S.Element.NULL source.now a (length target.old)) (along S.Element.NULL source.now b (length target.old)) }
{
    make(source, target, &Between { op, a, b });
}

/// Writes what an operator that may fault gives along two operands, up to the first fault.
pub fn try_combine<S: Element, E: Element, F: Operator<S, Result<E, ArithmeticFault>> + Copy>(
    source: &[S],
    target: &mut [E],
    op: F,
    a: Operand,
    b: Operand,
) -> Result<(), ElementFault>
    requires left { end_of a (length target.old) ≤ length source.now }
    requires right { end_of b (length target.old) ≤ length source.now }
    ensures { Made (collected 1 (map2 (F.Operator.gives op) (along S.Element.NULL source.now a (length target.old)) (along S.Element.NULL source.now b (length target.old)))) result target.new }
{
    try_make(source, target, &Between { op, a, b })
}
