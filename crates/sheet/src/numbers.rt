//! From a head to its numbers, and back.
ghost use Rattle.std.specs.Prelude.{◌≡◌, ◌≢◌, MatchResult};
ghost use Rattle.sheet.specs.Heads.{numbers_of};
ghost use Rattle.sheet.specs.declared.head.Head.{Head};

use crate::head::{Head, HeadNumbers, UnlawfulHead};
use std::error::Error;
use std::fmt;
use types::sizes::{size_from, size_number};
use types::{Form, Kind, Shape, Typing, UnknownNumber};

const MIN_WIDTH: u16 = 2;

const MAX_WIDTH: u16 = 1024;

/// The numbers that stand for a head in a file.
impl From<Head> for HeadNumbers {
    ghost from_gives = { λ h n. n ≡ numbers_of h };

    fn from(value: Head) -> HeadNumbers {
        HeadNumbers {
            width: value.width,
            kind: u16::from(value.result.kind),
            shape: u16::from(value.result.shape),
            r: size_number(value.result.r),
            s: size_number(value.result.s),
            form: u16::from(value.form),
        }
    }
}

/// The lawful head with these numbers, if there is one.
impl TryFrom<HeadNumbers> for Head {
    type Error = UnlawfulHead;

    ghost try_from_gives = { λ n r. MatchResult r (λ h. numbers_of h ≡ n) (λ _. (h : Head) → numbers_of h ≢ n) };

    fn try_from(value: HeadNumbers) -> Result<Head, UnlawfulHead> {
        let width = value.width;
        let form = Form::try_from(value.form)?;
        let result = Typing {
            kind: Kind::try_from(value.kind)?,
            shape: Shape::try_from(value.shape)?,
            r: size_from(value.r),
            s: size_from(value.s),
        };
        if !(MIN_WIDTH..=MAX_WIDTH).contains(&width) || !result.is_lawful(width) {
            return Err(UnlawfulHead);
        }
        Ok(Head {
            width,
            result,
            form,
        })
    }
}

/// A head is lawful only if each of its numbers stands for something.
impl From<UnknownNumber> for UnlawfulHead {
    fn from(_value: UnknownNumber) -> UnlawfulHead {
        UnlawfulHead
    }
}

impl fmt::Display for UnlawfulHead {
    fn fmt<W: fmt::Write>(&self, f: &mut fmt::Formatter<W>) -> fmt::Result {
        write!(
            f,
            "no lawful head: the form is 1, the width 2 to 1024, and the result's type fits the width"
        )
    }
}

impl Error for UnlawfulHead {}
