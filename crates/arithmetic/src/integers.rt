//! Operators on integers: the exact result, or the fault that says why there is none.
ghost use Rattle.arithmetic.specs.Exact.{exact, added, subtracted, multiplied, divided, remains, raised, negated};

use crate::faults::ArithmeticFault;
use crate::operators::{Function, Operator};

/// The operators between two integers whose result is an integer.
#[derive(Clone, Copy, PartialEq, Eq, Debug)]
pub enum Arithmetic {
    Add,
    Subtract,
    Multiply,
    Divide,
    Remainder,
    Power,
}

// Each operator is a type of its own, and so are the orders: a loop over cells then has no choice inside.

/// `x + y`.
#[derive(Clone, Copy)]
pub struct Sum;

impl Operator<i32, Result<i32, ArithmeticFault>> for Sum {
    ghost gives = { λ _. added };

    fn apply(&self, x: i32, y: i32) -> Result<i32, ArithmeticFault> {
        x.checked_add(y).ok_or(ArithmeticFault::Overflow)
    }
}

/// `x - y`.
#[derive(Clone, Copy)]
pub struct Difference;

impl Operator<i32, Result<i32, ArithmeticFault>> for Difference {
    ghost gives = { λ _. subtracted };

    fn apply(&self, x: i32, y: i32) -> Result<i32, ArithmeticFault> {
        x.checked_sub(y).ok_or(ArithmeticFault::Overflow)
    }
}

/// `x * y`.
#[derive(Clone, Copy)]
pub struct Product;

impl Operator<i32, Result<i32, ArithmeticFault>> for Product {
    ghost gives = { λ _. multiplied };

    fn apply(&self, x: i32, y: i32) -> Result<i32, ArithmeticFault> {
        x.checked_mul(y).ok_or(ArithmeticFault::Overflow)
    }
}

/// `x / y`, without its fraction.
#[derive(Clone, Copy)]
pub struct Quotient;

impl Operator<i32, Result<i32, ArithmeticFault>> for Quotient {
    ghost gives = { λ _. divided };

    fn apply(&self, x: i32, y: i32) -> Result<i32, ArithmeticFault> {
        if y == 0 {
            return Err(ArithmeticFault::DivisorZero);
        }
        x.checked_div(y).ok_or(ArithmeticFault::Overflow)
    }
}

/// `x % y`, with the sign of `x`.
#[derive(Clone, Copy)]
pub struct Remainder;

impl Operator<i32, Result<i32, ArithmeticFault>> for Remainder {
    ghost gives = { λ _. remains };

    fn apply(&self, x: i32, y: i32) -> Result<i32, ArithmeticFault> {
        if y == 0 {
            return Err(ArithmeticFault::DivisorZero);
        }
        Ok(x.wrapping_rem(y))
    }
}

/// `x ^ y`: as many factors `x` as `y` says.
#[derive(Clone, Copy)]
pub struct Power;

impl Operator<i32, Result<i32, ArithmeticFault>> for Power {
    ghost gives = { λ _. raised };

    fn apply(&self, x: i32, y: i32) -> Result<i32, ArithmeticFault> {
        if y < 0 {
            return Err(ArithmeticFault::NegativeExponent);
        }
        x.checked_pow(y.cast_unsigned())
            .ok_or(ArithmeticFault::Overflow)
    }
}

impl Operator<i32, Result<i32, ArithmeticFault>> for Arithmetic {
    ghost gives = { exact };

    fn apply(&self, x: i32, y: i32) -> Result<i32, ArithmeticFault> {
        // a closed list that rows name by number: the match gives each name its operator
        match self {
            Arithmetic::Add => Sum.apply(x, y),
            Arithmetic::Subtract => Difference.apply(x, y),
            Arithmetic::Multiply => Product.apply(x, y),
            Arithmetic::Divide => Quotient.apply(x, y),
            Arithmetic::Remainder => Remainder.apply(x, y),
            Arithmetic::Power => Power.apply(x, y),
        }
    }
}

/// `-x`.
#[derive(Clone, Copy)]
pub struct Negative;

impl Function<i32, Result<i32, ArithmeticFault>> for Negative {
    ghost gives = { λ _. negated };

    fn apply(&self, x: i32) -> Result<i32, ArithmeticFault> {
        x.checked_neg().ok_or(ArithmeticFault::Overflow)
    }
}
