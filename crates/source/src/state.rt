//! Why a read tells no value, the state in which a read leaves the stream, and what a sheet sees of both.
ghost use Rattle.std.specs.Prelude.{◌≡◌, Some};
ghost use Rattle.source.specs.States.{state_number, state_of, misread_text, good, bad_word, ended};

use std::error::Error;
use std::fmt;

/// Why a read tells no value.
#[derive(Clone, Copy, PartialEq, Eq, Debug)]
pub enum Misread {
    /// There was a word, and it does not write a value of the kind that was asked for.
    BadWord,
    /// There was no word before the end.
    Ended,
}

impl fmt::Display for Misread {
    ghost output = { λ m. Some (misread_text m) };

    fn fmt<W: fmt::Write>(&self, f: &mut fmt::Formatter<W>) -> fmt::Result {
        f.write_str(match self {
            Misread::BadWord => "the word writes no such value",
            Misread::Ended => "no word before the end",
        })
    }
}

impl Error for Misread {}

/// How the last read went.
// An enum of three: a sheet sees it by number, and as a Result its first case would carry nothing.
#[derive(Clone, Copy, PartialEq, Eq, Debug)]
pub enum StreamState {
    /// A value was read.
    Good = 0,
    /// There was a word, and it does not write a value of the kind that was asked for.
    BadWord = 1,
    /// There was no word before the end.
    Ended = 2,
}

impl StreamState {
    /// The number by which a sheet sees the state.
    pub fn number(self) -> u8
        ensures { result ≡ state_number self }
    {
        self as u8
    }
}

impl<T> From<&Result<T, Misread>> for StreamState {
    ghost from_gives = { λ read state. state ≡ state_of read.now };

    fn from(read: &Result<T, Misread>) -> StreamState {
        match read {
            Ok(_) => StreamState::Good,
            Err(Misread::BadWord) => StreamState::BadWord,
            Err(Misread::Ended) => StreamState::Ended,
        }
    }
}

/// What a sheet sees of a read. Unless the state is good, the value is the null of its kind.
#[derive(Clone, Copy, PartialEq, Eq, Debug)]
pub struct ReadValue<T> {
    /// What was read, or the null.
    pub value: T,
    /// How the read went.
    pub state: StreamState,
}

impl<T> ReadValue<T> {
    /// A value that was read.
    pub fn good(value: T) -> ReadValue<T>
        ensures { result ≡ good value }
    {
        ReadValue {
            value,
            state: StreamState::Good,
        }
    }

    /// The null, for a word that writes no value.
    pub fn bad_word(null: T) -> ReadValue<T>
        ensures { result ≡ bad_word null }
    {
        ReadValue {
            value: null,
            state: StreamState::BadWord,
        }
    }

    /// The null, for want of a word.
    pub fn ended(null: T) -> ReadValue<T>
        ensures { result ≡ ended null }
    {
        ReadValue {
            value: null,
            state: StreamState::Ended,
        }
    }
}
