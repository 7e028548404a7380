//! Functions of one element, cell by cell.
ghost use Rattle.std.specs.Prelude.{◌≡◌, ℕ, ◌<◌, map, length, slice_index_or};
ghost use Rattle.elementwise.specs.Results.{collected, Made};

use crate::rules::{Rule, make, try_make};
use arithmetic::faults::{ArithmeticFault, ElementFault};
use arithmetic::operators::Function;
use element::Element;

/// A function of the element at the same place.
#[derive(Clone, Copy)]
pub struct Each<F> {
    pub of: F,
}

impl<X: Element, Y, F: Function<X, Y>> Rule<X, Y> for Each<F> {
    ghost can = { λ s source k. k < length source };

    ghost gives = { λ s source k. F.Function.gives s.of (slice_index_or source k X.Element.NULL) };

    fn cell(&self, source: &[X], k: usize) -> Y {
        self.of.apply(source[k])
    }
}

/// Writes what a function gives of each element.
pub fn map<S: Element, E: Element, F: Function<S, E> + Copy>(source: &[S], target: &mut [E], of: F)
    requires alike { length target.old ≡ length source.now }
    ensures { target.new ≡ map (F.Function.gives of) source.now }
{
    make(source, target, &Each { of });
}

/// Writes what a function that may fault gives of each element, up to the first fault.
pub fn try_map<S: Element, E: Element, F: Function<S, Result<E, ArithmeticFault>> + Copy>(
    source: &[S],
    target: &mut [E],
    of: F,
) -> Result<(), ElementFault>
    requires alike { length target.old ≡ length source.now }
    ensures { Made (collected 1 (map (F.Function.gives of) source.now)) result target.new }
{
    try_make(source, target, &Each { of })
}
