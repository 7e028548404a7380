//! Operators whose result is a boolean: the orders of integers, and the logic of booleans.
ghost use Rattle.std.specs.Prelude.{◌≡◌, not, int_le, int_lt};
ghost use Rattle.arithmetic.specs.Truths.{above, at_least, ordered, decided};

use crate::operators::{Function, Operator};

/// The orders of two integers.
#[derive(Clone, Copy, PartialEq, Eq, Debug)]
pub enum Order {
    Less,
    Greater,
    AtMost,
    AtLeast,
}

// The orders are types of their own, since a loop over cells that is given one has no choice inside it.

/// `x < y`.
#[derive(Clone, Copy)]
pub struct Under;

impl Operator<i32, bool> for Under {
    ghost gives = { λ _. int_lt };

    fn apply(&self, x: i32, y: i32) -> bool {
        x < y
    }
}

/// `x > y`.
#[derive(Clone, Copy)]
pub struct Above;

impl Operator<i32, bool> for Above {
    ghost gives = { λ _. above };

    fn apply(&self, x: i32, y: i32) -> bool {
        x > y
    }
}

/// `x <= y`.
#[derive(Clone, Copy)]
pub struct NotAbove;

impl Operator<i32, bool> for NotAbove {
    ghost gives = { λ _. int_le };

    fn apply(&self, x: i32, y: i32) -> bool {
        x <= y
    }
}

/// `x >= y`.
#[derive(Clone, Copy)]
pub struct NotUnder;

impl Operator<i32, bool> for NotUnder {
    ghost gives = { λ _. at_least };

    fn apply(&self, x: i32, y: i32) -> bool {
        x >= y
    }
}

impl Operator<i32, bool> for Order {
    ghost gives = { ordered };

    fn apply(&self, x: i32, y: i32) -> bool {
        // a closed list that rows name by number: the match gives each name its order
        match self {
            Order::Less => Under.apply(x, y),
            Order::Greater => Above.apply(x, y),
            Order::AtMost => NotAbove.apply(x, y),
            Order::AtLeast => NotUnder.apply(x, y),
        }
    }
}

/// The operators between two booleans.
#[derive(Clone, Copy, PartialEq, Eq, Debug)]
pub enum Logic {
    And,
    Or,
    Xor,
}

impl Operator<bool, bool> for Logic {
    ghost gives = { decided };

    fn apply(&self, x: bool, y: bool) -> bool {
        match self {
            Logic::And => x && y,
            Logic::Or => x || y,
            Logic::Xor => x != y,
        }
    }
}

/// `not x`.
#[derive(Clone, Copy)]
pub struct Negation;

impl Function<bool, bool> for Negation {
    ghost gives = { λ _. not };

    fn apply(&self, x: bool) -> bool {
        !x
    }
}
