//! The operators by their numbers.
ghost use Rattle.instruction.specs.Operators.{prefix_of, infix_of, measure_of, Reads};

use crate::instructions::{Equality, Infix, Measure, Prefix};
use arithmetic::integers::Arithmetic;
use arithmetic::truths::{Logic, Order};
use types::UnknownNumber;

impl TryFrom<u16> for Prefix {
    type Error = UnknownNumber;

    ghost try_from_gives = { Reads prefix_of };

    fn try_from(value: u16) -> Result<Prefix, UnknownNumber> {
        match value {
            1 => Ok(Prefix::Minus),
            2 => Ok(Prefix::Not),
            _ => Err(UnknownNumber(value)),
        }
    }
}

impl TryFrom<u16> for Infix {
    type Error = UnknownNumber;

    ghost try_from_gives = { Reads infix_of };

    fn try_from(value: u16) -> Result<Infix, UnknownNumber> {
        match value {
            1 => Ok(Infix::Arithmetic(Arithmetic::Add)),
            2 => Ok(Infix::Arithmetic(Arithmetic::Subtract)),
            3 => Ok(Infix::Arithmetic(Arithmetic::Multiply)),
            4 => Ok(Infix::Arithmetic(Arithmetic::Divide)),
            5 => Ok(Infix::Arithmetic(Arithmetic::Remainder)),
            6 => Ok(Infix::Arithmetic(Arithmetic::Power)),
            7 => Ok(Infix::Order(Order::Less)),
            8 => Ok(Infix::Order(Order::Greater)),
            9 => Ok(Infix::Order(Order::AtMost)),
            10 => Ok(Infix::Order(Order::AtLeast)),
            11 => Ok(Infix::Logic(Logic::And)),
            12 => Ok(Infix::Logic(Logic::Or)),
            13 => Ok(Infix::Logic(Logic::Xor)),
            14 => Ok(Infix::Equality(Equality::Equal)),
            15 => Ok(Infix::Equality(Equality::Unequal)),
            16 => Ok(Infix::Join),
            17 => Ok(Infix::Product),
            18 => Ok(Infix::By),
            _ => Err(UnknownNumber(value)),
        }
    }
}

impl TryFrom<u16> for Measure {
    type Error = UnknownNumber;

    ghost try_from_gives = { Reads measure_of };

    fn try_from(value: u16) -> Result<Measure, UnknownNumber> {
        match value {
            1 => Ok(Measure::Length),
            2 => Ok(Measure::Rows),
            3 => Ok(Measure::Columns),
            4 => Ok(Measure::Reverse),
            5 => Ok(Measure::Single),
            _ => Err(UnknownNumber(value)),
        }
    }
}
