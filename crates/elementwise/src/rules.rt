//! New cells, each by a rule over other cells: proved once for every operation.
ghost use Rattle.std.specs.Prelude.{◌≡◌, ℕ, ◌+◌, ◌^◌, ◌<◌, List, length};
ghost use Rattle.arithmetic.specs.Faults.{at_element};
ghost use Rattle.element.specs.Cells.{tabulate};
ghost use Rattle.elementwise.specs.Results.{collected, Made};

use arithmetic::faults::{ArithmeticFault, ElementFault};
use element::Element;

/// How the k-th new cell comes from cells of type S: as a Y, an element or a result.
pub trait Rule<S, Y> {
    /// Whether it may be asked for the k-th cell.
    ghost can: { Self → List S → ℕ → Type 0 };

    /// The k-th cell.
    ghost gives: { Self → List S → ℕ → Y };

    /// The k-th new cell, from 0, over the cells of `source`.
    fn cell(&self, source: &[S], k: usize) -> Y
        requires { can self.now source.now k }
        ensures { result ≡ gives self.now source.now k };
}

/// The fault of the k-th new cell: k counts from 0, elements from 1.
fn at_place(k: usize, fault: ArithmeticFault) -> ElementFault
    requires { k + 1 < 2 ^ 64 }
    ensures { result ≡ at_element (k + 1) fault }
{
    ElementFault {
        element: k + 1,
        fault,
    }
}

// Two loops, with and without an early exit: one for both would test each result of a rule that cannot fault.
/// Writes each cell of `target` by a rule that cannot fault.
pub fn make<S, E: Element, R: Rule<S, E>>(source: &[S], target: &mut [E], rule: &R)
    requires reads { (k : ℕ) → k < length target.old → R.Rule.can rule.now source.now k }
    ensures { target.new ≡ tabulate (length target.old) (R.Rule.gives rule.now source.now) }
{
    for (k, cell) in target.iter_mut().enumerate() {
        *cell = rule.cell(source, k);
    }
}

/// Writes each cell of `target` by a rule that may fault, up to the first fault.
pub fn try_make<S, E: Element, R: Rule<S, Result<E, ArithmeticFault>>>(
    source: &[S],
    target: &mut [E],
    rule: &R,
) -> Result<(), ElementFault>
    requires reads { (k : ℕ) → k < length target.old → R.Rule.can rule.now source.now k }
    ensures { Made (collected 1 (tabulate (length target.old) (R.Rule.gives rule.now source.now))) result target.new }
{
    for (k, cell) in target.iter_mut().enumerate() {
        match rule.cell(source, k) {
            Ok(value) => *cell = value,
            Err(fault) => return Err(at_place(k, fault)),
        }
    }
    Ok(())
}
