//! A word as a boolean, byte by byte.
ghost use Rattle.source.specs.Letters.{joins, truth};
ghost use Rattle.source.specs.Reads.{boolean_told};
ghost use Rattle.source.specs.declared.letter.Letter.TheVariants.{Missing};
ghost use Rattle.source.specs.BooleanWords.{says};

use crate::state::Misread;
use crate::words::Scanner;

/// What a word is so far: of interest only while it is one letter.
#[derive(Clone, Copy)]
pub enum Letter {
    Missing,
    One(u8),
    Several,
}

impl Scanner for Letter {
    type Value = bool;

    ghost empty = { Missing };

    ghost after = { joins };

    ghost ended = { truth };

    ghost told = { boolean_told };

    ghost tells = { says };

    fn empty_word() -> Letter {
        Letter::Missing
    }

    fn push(self, byte: u8) -> Letter {
        match self {
            Letter::Missing => Letter::One(byte),
            _ => Letter::Several,
        }
    }

    /// `T` is true, `F` is false, and no other word is a boolean.
    fn finish(self) -> Result<bool, Misread> {
        match self {
            Letter::Missing => Err(Misread::Ended),
            Letter::One(b'T') => Ok(true),
            Letter::One(b'F') => Ok(false),
            _ => Err(Misread::BadWord),
        }
    }
}
