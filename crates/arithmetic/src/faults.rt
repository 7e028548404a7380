//! Why an operation on integers has no result, and at which element of which row.
ghost use Rattle.std.specs.Prelude.{◌≡◌, Some};
ghost use Rattle.std.specs.Result.{result_map_both};
ghost use Rattle.arithmetic.specs.Faults.{number_of, text_of, at_element, at_row};

use std::error::Error;
use std::fmt;

/// Why two integers have no result under an operator.
#[derive(Clone, Copy, PartialEq, Eq, Hash, Debug)]
pub enum ArithmeticFault {
    /// The exact result does not fit 32 bits.
    Overflow = 20,
    /// A number was divided by 0.
    DivisorZero = 21,
    /// A number was raised to a power below 0.
    NegativeExponent = 22,
}

/// The number that a host is told.
impl From<ArithmeticFault> for u8 {
    ghost from_gives = { λ f n. n ≡ number_of f };

    fn from(value: ArithmeticFault) -> u8 {
        value as u8
    }
}

impl fmt::Display for ArithmeticFault {
    ghost output = { λ f. Some (text_of f) };

    fn fmt<W: fmt::Write>(&self, f: &mut fmt::Formatter<W>) -> fmt::Result {
        match self {
            ArithmeticFault::Overflow => write!(f, "a result outside 32 bits"),
            ArithmeticFault::DivisorZero => write!(f, "a division by 0"),
            ArithmeticFault::NegativeExponent => write!(f, "a negative exponent"),
        }
    }
}

impl Error for ArithmeticFault {}

/// A fault and the element of the result that met it, counted from 1, rows before columns.
#[derive(Clone, Copy, PartialEq, Eq, Hash, Debug)]
pub struct ElementFault {
    pub element: usize,
    pub fault: ArithmeticFault,
}

/// A scalar has one element: its fault is that of element 1.
impl From<ArithmeticFault> for ElementFault {
    ghost from_gives = { λ f g. g ≡ at_element 1 f };

    fn from(value: ArithmeticFault) -> ElementFault {
        ElementFault {
            element: 1,
            fault: value,
        }
    }
}

/// An element's fault together with the row of the sheet, and the line that this row came from.
#[derive(Clone, Copy, PartialEq, Eq, Hash, Debug)]
pub struct Located {
    pub row: u16,
    pub line: u16,
    pub element: usize,
    pub fault: ArithmeticFault,
}

/// The same result, its fault named with the row and line that met it.
pub fn at_row<T>(r: Result<T, ElementFault>, row: u16, line: u16) -> Result<T, Located>
    ensures { result ≡ result_map_both (λ x. x) (at_row row line) r }
{
    r.map_err(|ElementFault { element, fault }| Located {
        row,
        line,
        element,
        fault,
    })
}
