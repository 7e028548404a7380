//! Why a row has no result.
ghost use Rattle.std.specs.Prelude.{◌≡◌};
ghost use Rattle.fault.specs.Faults.{cause_number};

use arithmetic::faults::ArithmeticFault;
use std::error::Error;
use std::fmt;

/// What went wrong. Of several, the one with the greatest number is told, but for those of elements, which come in
/// the elements' order.
#[derive(Clone, Copy, Debug, PartialEq, Eq, Hash)]
pub enum Cause {
    /// An element has no result.
    Arithmetic(ArithmeticFault),
    /// An index names no element.
    Index,
    /// Sizes that must agree differ.
    SizesDiffer,
    /// A value has more elements than the sheet's width.
    Beyond,
    /// An interval's upper bound is under its lower one, or a step under 1.
    Disordered,
    /// The operands have no kinds and shapes for which the row has a rule.
    NoRule,
}

/// The number that a host is told.
impl From<Cause> for u8 {
    ghost from_gives = { λ c n. n ≡ cause_number c };

    fn from(value: Cause) -> u8 {
        match value {
            Cause::Arithmetic(fault) => u8::from(fault),
            Cause::Index => 23,
            Cause::SizesDiffer => 24,
            Cause::Beyond => 25,
            Cause::Disordered => 26,
            Cause::NoRule => 27,
        }
    }
}

impl fmt::Display for Cause {
    fn fmt<W: fmt::Write>(&self, f: &mut fmt::Formatter<W>) -> fmt::Result {
        match *self {
            Cause::Arithmetic(fault) => write!(f, "{fault}"),
            Cause::Index => write!(f, "an index outside"),
            Cause::SizesDiffer => write!(f, "sizes that differ"),
            Cause::Beyond => write!(f, "a value beyond the width"),
            Cause::Disordered => write!(f, "an upper bound under the lower one, or a step under 1"),
            Cause::NoRule => write!(f, "no rule for these operands"),
        }
    }
}

impl Error for Cause {}
