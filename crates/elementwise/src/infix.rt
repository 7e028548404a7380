//! The language's operators between two values, element by element.
ghost use Rattle.std.specs.Prelude.{◌≡◌, ℕ, ◌+◌, ◌≤◌, false, length, pos};
ghost use Rattle.arithmetic.specs.Exact.{exact};
ghost use Rattle.arithmetic.specs.Truths.{ordered, decided};
ghost use Rattle.element.specs.Cells.{put};
ghost use Rattle.element.specs.Operands.{end_of, along};
ghost use Rattle.elementwise.specs.Results.{map2, collected, Wrote};

use crate::binary::{combine, try_combine};
use crate::sure::try_combine_sure;
use arithmetic::faults::ElementFault;
use arithmetic::integers::{Arithmetic, Difference, Power, Product, Quotient, Remainder, Sum};
use arithmetic::truths::{Above, Logic, NotAbove, NotUnder, Order, Under};
use element::operands::Operand;

/// Writes n integers from `to` on: what an operator gives of each pair of elements, up to the first fault.
pub fn calculate(
    table: &mut [i32],
    op: Arithmetic,
    a: Operand,
    b: Operand,
    to: usize,
    n: usize,
) -> Result<(), ElementFault>
    requires left { end_of a n ≤ to }
    requires right { end_of b n ≤ to }
    requires within { to + n ≤ length table.old }
    ensures { Wrote (collected 1 (map2 (exact op) (along (pos 0) table.old a n) (along (pos 0) table.old b n))) table.old to n result table.new }
{
    let (source, rest) = table.split_at_mut(to);
    let target = &mut rest[..n];
    // a loop of its own for each operator, chosen once outside it
    match op {
        Arithmetic::Add => try_combine_sure(source, target, Sum, a, b),
        Arithmetic::Subtract => try_combine_sure(source, target, Difference, a, b),
        Arithmetic::Multiply => try_combine(source, target, Product, a, b),
        Arithmetic::Divide => try_combine(source, target, Quotient, a, b),
        Arithmetic::Remainder => try_combine(source, target, Remainder, a, b),
        Arithmetic::Power => try_combine(source, target, Power, a, b),
    }
}

/// Writes n booleans from `to` on: whether each pair of integers stands in an order.
pub fn compare(
    integers: &[i32],
    booleans: &mut [bool],
    order: Order,
    a: Operand,
    b: Operand,
    to: usize,
    n: usize,
)
    requires left { end_of a n ≤ length integers.now }
    requires right { end_of b n ≤ length integers.now }
    requires within { to + n ≤ length booleans.old }
    ensures { booleans.new ≡ put booleans.old to (map2 (ordered order) (along (pos 0) integers.now a n) (along (pos 0) integers.now b n)) }
{
    let target = &mut booleans[to..to + n];
    // a loop of its own for each order too
    match order {
        Order::Less => combine(integers, target, Under, a, b),
        Order::Greater => combine(integers, target, Above, a, b),
        Order::AtMost => combine(integers, target, NotAbove, a, b),
        Order::AtLeast => combine(integers, target, NotUnder, a, b),
    }
}

/// Writes n booleans from `to` on: what an operator decides of each pair of booleans.
pub fn decide(table: &mut [bool], op: Logic, a: Operand, b: Operand, to: usize, n: usize)
    requires left { end_of a n ≤ to }
    requires right { end_of b n ≤ to }
    requires within { to + n ≤ length table.old }
    ensures { table.new ≡ put table.old to (map2 (decided op) (along false table.old a n) (along false table.old b n)) }
{
    let (source, rest) = table.split_at_mut(to);
    combine(source, &mut rest[..n], op, a, b);
}
