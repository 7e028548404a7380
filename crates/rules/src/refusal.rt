//! Why a sheet is not accepted.
ghost use Rattle.std.specs.Prelude.{◌≡◌};
ghost use Rattle.rules.specs.Refusals.{refusal_number};

use std::error::Error;
use std::fmt;

/// The rule that a row breaks. Of several, the one with the smallest number is told.
#[derive(Clone, Copy, Debug, PartialEq, Eq)]
pub enum Refusal {
    /// The room is too short; this is of no row.
    NoRoom = 4,
    /// An unknown code, a number that names nothing, a literal outside its kind, a wrong fixed size or a stray field.
    Form = 5,
    /// An operand is no expression row directly before.
    Operand = 6,
    /// Blocks do not match, nest too deep, or the last row is no return outside all blocks.
    Block = 7,
    /// A variable is not in scope, or is none that can be written.
    Scope = 8,
    /// A kind or a shape does not fit.
    Unfit = 9,
    /// Known sizes do not fit, go beyond the width, or a size is open that must not be.
    Sizes = 10,
}

/// The number of a refusal, as hosts are told it.
impl From<Refusal> for u16 {
    ghost from_gives = { λ e n. n ≡ refusal_number e };

    fn from(value: Refusal) -> u16 {
        value as u16
    }
}

impl fmt::Display for Refusal {
    fn fmt<W: fmt::Write>(&self, f: &mut fmt::Formatter<W>) -> fmt::Result {
        match *self {
            Refusal::NoRoom => write!(f, "the memory brought is too short"),
            Refusal::Form => {
                write!(
                    f,
                    "no such row: an unknown code, kind, shape or operator, a literal outside its kind, a wrong fixed size, or a stray field"
                )
            }
            Refusal::Operand => {
                write!(
                    f,
                    "an operand is an earlier expression row, with only expression rows between"
                )
            }
            Refusal::Block => {
                write!(
                    f,
                    "blocks match, nest at most 32 deep, test, break and continue stand in a loop, and the last row returns"
                )
            }
            Refusal::Scope => {
                write!(
                    f,
                    "a variable is declared earlier, in a block still open; only a declared one is written"
                )
            }
            Refusal::Unfit => write!(f, "a kind or a shape does not fit"),
            Refusal::Sizes => {
                write!(
                    f,
                    "known sizes differ or are beyond the width, or a size is open that must be written"
                )
            }
        }
    }
}

impl Error for Refusal {}
