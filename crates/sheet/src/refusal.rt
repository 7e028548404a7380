//! Why a sheet is not loaded, made or saved.
ghost use Rattle.std.specs.Prelude.{◌≡◌};
ghost use Rattle.sheet.specs.Refusals.{refusal_number};
ghost use Rattle.sheet.specs.declared.refusal.Refusal.TheVariants.{BadHead};

use crate::head::UnlawfulHead;
use crate::room::Room;
use std::error::Error;
use std::fmt;

/// The refusals of load, make and save. Where several would do, the one with the smallest number is told.
#[derive(Clone, Copy, Debug, PartialEq, Eq, Hash)]
pub enum Refusal {
    /// Under twenty bytes, or no mark at the end.
    NotASheet = 1,
    /// The note, the rows and the trailer do not make up the file, or there are too many of them.
    BadLayout = 2,
    /// No lawful head has these numbers.
    BadHead = 3,
    /// The room or the buffer is too short.
    NoRoom = 4,
}

/// A refusal of load or make, with the room that the call was brought.
#[derive(Debug, Drop)]
pub struct Returned {
    pub refusal: Refusal,
    pub room: Room,
}

/// The number that a host is told.
impl From<Refusal> for u16 {
    ghost from_gives = { λ x n. n ≡ refusal_number x };

    fn from(value: Refusal) -> u16 {
        value as u16
    }
}

impl From<UnlawfulHead> for Refusal {
    ghost from_gives = { λ _ x. x ≡ BadHead };

    fn from(_value: UnlawfulHead) -> Refusal {
        Refusal::BadHead
    }
}

impl fmt::Display for Refusal {
    fn fmt<W: fmt::Write>(&self, f: &mut fmt::Formatter<W>) -> fmt::Result {
        match *self {
            Refusal::NotASheet => {
                write!(
                    f,
                    "not a sheet, which has at least 20 bytes and ends in the mark 0x5047"
                )
            }
            Refusal::BadLayout => {
                write!(
                    f,
                    "not laid out as a note of at most 4096 bytes, 1 to 512 rows and the trailer"
                )
            }
            Refusal::BadHead => { write!(f, "{}", UnlawfulHead) }
            Refusal::NoRoom => write!(f, "the memory brought is too short"),
        }
    }
}

impl fmt::Display for Returned {
    fn fmt<W: fmt::Write>(&self, f: &mut fmt::Formatter<W>) -> fmt::Result {
        write!(f, "{}", self.refusal)
    }
}

impl Error for Refusal {}

impl Error for Returned {}
