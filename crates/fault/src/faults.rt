//! A row's fault, whole: cause, row, line and element.
ghost use Rattle.std.specs.Prelude.{◌≡◌};
ghost use Rattle.fault.specs.Faults.{fault_of, whole_row, index_at};

use crate::causes::Cause;
use arithmetic::faults::Located;
use std::error::Error;
use std::fmt;

/// Why a row has no result, with the row, the line of the source that it came from, and the element that met the
/// fault: counted from 1 in the result, for an index in the index list, and 0 where the row as a whole is at fault.
#[derive(Clone, Copy, Debug, PartialEq, Eq, Hash)]
pub struct Fault {
    pub row: u16,
    pub line: u16,
    pub element: usize,
    pub cause: Cause,
}

/// The fault of an element is the row's fault, with all that it carries: so `?` hands it on.
impl From<Located> for Fault {
    ghost from_gives = { λ l f. f ≡ fault_of l };

    fn from(value: Located) -> Fault {
        Fault {
            row: value.row,
            line: value.line,
            element: value.element,
            cause: Cause::Arithmetic(value.fault),
        }
    }
}

impl Fault {
    /// A fault of the row as a whole.
    pub fn of_row(row: u16, line: u16, cause: Cause) -> Fault
        ensures { result ≡ whole_row row line cause }
    {
        Fault {
            row,
            line,
            element: 0,
            cause,
        }
    }

    /// An index outside, at this place of the index list, from 1.
    pub fn of_index(row: u16, line: u16, place: usize) -> Fault
        ensures { result ≡ index_at row line place }
    {
        Fault {
            row,
            line,
            element: place,
            cause: Cause::Index,
        }
    }
}

impl fmt::Display for Fault {
    fn fmt<W: fmt::Write>(&self, f: &mut fmt::Formatter<W>) -> fmt::Result {
        let row = self.row;
        let line = self.line;
        let element = self.element;
        let number = u8::from(self.cause);
        let cause = self.cause;
        write!(
            f,
            "row {row}, line {line}, element {element}: fault {number}, {cause}"
        )
    }
}

impl Error for Fault {}
