//! Operators on integers along two operands, in two plain loops where every result fits 32 bits.
ghost use Rattle.std.specs.Prelude.{◌≡◌, ℕ, ◌<◌, ◌≤◌, true, length, ℤ, pos};
ghost use Rattle.element.specs.Cells.{tabulate};
ghost use Rattle.element.specs.Operands.{place_of, end_of, along};
ghost use Rattle.arithmetic.specs.Exact.{bounded};
ghost use Rattle.elementwise.specs.Results.{map2, collected, Made};
ghost use Rattle.elementwise.specs.Sure.{Within, value_at, Reads};

use crate::binary::try_combine;
use crate::rules::{Rule, make};
use crate::values::Sure;
use arithmetic::faults::{ArithmeticFault, ElementFault};
use arithmetic::operators::Operator;
use element::operands::Operand;

/// An operator and its operands, where every value fits.
#[derive(Clone, Copy)]
pub struct Surely<F> {
    pub op: F,
    pub a: Operand,
    pub b: Operand,
}

// Not `Between` over an operator of its own: an operator may be asked for any two elements, this value only where it fits.
impl<F: Sure> Rule<i32, i32> for Surely<F> {
    ghost can = { λ s source k. (place_of s.a k < length source) × (place_of s.b k < length source) × Within (value_at (F.Sure.value s.op) source s.a s.b k) };

    ghost gives = { λ s source k. value_at (F.Sure.value s.op) source s.a s.b k };

    fn cell(&self, source: &[i32], k: usize) -> i32 {
        let x = source[self.a.place(k)];
        let y = source[self.b.place(k)];
        self.op.value_of(x, y)
    }
}

/// Whether every value along two operands fits. It tests them all: with no early exit, as `all` has, the loop can become vector code.
fn all_fit<F: Sure>(source: &[i32], op: &F, a: Operand, b: Operand, n: usize) -> bool
    requires left { end_of a n ≤ length source.now }
    requires right { end_of b n ≤ length source.now }
    ensures { result ≡ true → (k : ℕ) → k < n → Within (value_at (F.Sure.value op.now) source.now a b k) }
{
    let mut fit = true;
    // a loop: in the closure of a fold the proof lacks a bound on k
    for k in 0..n {
        let x = source[a.place(k)];
        let y = source[b.place(k)];
        fit &= op.fits(x, y);
    }
    fit
}

/// Writes the values along two operands, all of which fit. Each kind of operands has its own loop, with nothing to decide in a turn.
fn write_values<F: Sure + Copy>(source: &[i32], target: &mut [i32], op: F, a: Operand, b: Operand)
    requires reads { Reads (F.Sure.value op) source.now (length target.old) a b }
    ensures { target.new ≡ tabulate (length target.old) (value_at (F.Sure.value op) source.now a b) }
{
    match (a, b) {
        (Operand::Run(x), Operand::Run(y)) => {
            let (a, b) = (Operand::Run(x), Operand::Run(y));
            make(source, target, &Surely { op, a, b });
        }
        (Operand::Run(x), Operand::Scalar(y)) => {
            let (a, b) = (Operand::Run(x), Operand::Scalar(y));
            make(source, target, &Surely { op, a, b });
        }
        (Operand::Scalar(_), _) => make(source, target, &Surely { op, a, b }),
    }
}

/// Writes what an operator that may fault gives along two operands, as `try_combine` does, in plain loops where no element faults.
pub fn try_combine_sure<F: Operator<i32, Result<i32, ArithmeticFault>> + Sure + Copy>(
    source: &[i32],
    target: &mut [i32],
    op: F,
    a: Operand,
    b: Operand,
) -> Result<(), ElementFault>
    requires left { end_of a (length target.old) ≤ length source.now }
    requires right { end_of b (length target.old) ≤ length source.now }
    requires same { (x y : ℤ) → F.Operator.gives op x y ≡ bounded (F.Sure.value op x y) }
    ensures { Made (collected 1 (map2 (F.Operator.gives op) (along (pos 0) source.now a (length target.old)) (along (pos 0) source.now b (length target.old)))) result target.new }
{
    if all_fit(source, &op, a, b, target.len()) {
        write_values(source, target, op, a, b);
        return Ok(());
    }
    try_combine(source, target, op, a, b)
}
