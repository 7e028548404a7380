//! A word as an integer, byte by byte.
ghost use Rattle.std.specs.Prelude.{◌≡◌};
ghost use Rattle.source.specs.Integers.{ranged};
ghost use Rattle.source.specs.Numerals.{figure, step, finished};
ghost use Rattle.source.specs.Reads.{integer_told};
ghost use Rattle.source.specs.declared.numeral.Numeral.TheVariants.{Empty};
ghost use Rattle.source.specs.IntegerWords.{writes};

use crate::state::Misread;
use crate::words::Scanner;

/// The sign in front of digits; none is a plus.
#[derive(Clone, Copy)]
pub enum Sign {
    Plus,
    Minus,
}

impl Sign {
    /// The integer of this sign and magnitude, where 32 bits hold it.
    fn apply(self, magnitude: u32) -> Option<i32>
        ensures { result ≡ ranged self magnitude }
    {
        let value = match self {
            Sign::Plus => i64::from(magnitude),
            Sign::Minus => -i64::from(magnitude),
        };
        i32::try_from(value).ok()
    }
}

/// What a word is so far. A magnitude stops at the largest `u32`, which no integer has.
#[derive(Clone, Copy)]
pub enum Numeral {
    Empty,
    Signed(Sign),
    Digits(Sign, u32),
    Broken,
}

/// `byte` after a sign and the digits of `magnitude`.
fn digit(sign: Sign, magnitude: u32, byte: u8) -> Numeral
    ensures { result ≡ figure sign magnitude byte }
{
    if !byte.is_ascii_digit() {
        return Numeral::Broken;
    }
    let figure = u32::from(byte - b'0');
    Numeral::Digits(sign, magnitude.saturating_mul(10).saturating_add(figure))
}

impl Scanner for Numeral {
    type Value = i32;

    ghost empty = { Empty };

    ghost after = { step };

    ghost ended = { finished };

    ghost told = { integer_told };

    ghost tells = { writes };

    fn empty_word() -> Numeral {
        Numeral::Empty
    }

    fn push(self, byte: u8) -> Numeral {
        match self {
            Numeral::Empty => match byte {
                b'+' => Numeral::Signed(Sign::Plus),
                b'-' => Numeral::Signed(Sign::Minus),
                _ => digit(Sign::Plus, 0, byte),
            },
            Numeral::Signed(sign) => digit(sign, 0, byte),
            Numeral::Digits(sign, magnitude) => digit(sign, magnitude, byte),
            Numeral::Broken => Numeral::Broken,
        }
    }

    fn finish(self) -> Result<i32, Misread> {
        match self {
            Numeral::Empty => Err(Misread::Ended),
            Numeral::Digits(sign, magnitude) => sign.apply(magnitude).ok_or(Misread::BadWord),
            Numeral::Signed(_) | Numeral::Broken => Err(Misread::BadWord),
        }
    }
}
