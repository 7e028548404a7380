//! Values read from a source.
// A source and its count stay two parameters: a struct of both lends the source, and each clause then needs one more, that it is still the same.
ghost use Rattle.std.specs.Prelude.{◌≡◌, ℕ, List, Result, false, pos};
ghost use Rattle.source.specs.Characters.{signed_byte};
ghost use Rattle.source.specs.Reads.{integer_read, boolean_read, character_read};
ghost use Rattle.source.specs.States.{seen};
ghost use Rattle.source.specs.Taking.{Took};
ghost use Rattle.source.specs.Waiting.{behind};
ghost use Rattle.source.specs.Words.{rest, Parted, FirstParted};
ghost use Rattle.source.specs.declared.state.Misread.{Misread as Misreads};

use crate::letter::Letter;
use crate::numeral::Numeral;
use crate::source::Source;
use crate::state::{Misread, ReadValue};
use crate::words::read_word;

/// A value that is read from the front of what waits.
pub trait Readable: Sized {
    // What is read of the bytes that wait.
    ghost read_of: { List ℕ → Result Self Misreads };

    // What waits afterwards.
    ghost left_by: { List ℕ → List ℕ };

    // How what waited is cut into what a read takes and what it leaves.
    ghost parted: { List ℕ → List ℕ → Type 0 };

    /// Reads a value. The bytes that it takes are added to `taken`, which stops at its greatest.
    fn read<S: Source>(source: &mut S, taken: &mut u32) -> Result<Self, Misread>
        ensures told { result ≡ read_of (S.waiting source.old) }
        ensures waits { S.waiting source.new ≡ left_by (S.waiting source.old) }
        ensures parts { parted (S.waiting source.old) (S.waiting source.new) }
        ensures took { Took (S.waiting source.old) (S.waiting source.new) taken.old taken.new };
}

/// A readable value whose kind has a null.
pub trait WithNull: Readable {
    /// The null of the kind: what is seen where no value is read.
    const ABSENT: Self;

    ghost ABSENT: { Self };
}

/// The next word as an integer: a sign or none, and digits, within 32 bits.
impl Readable for i32 {
    ghost read_of = { integer_read };

    ghost left_by = { rest };

    ghost parted = { Parted };

    fn read<S: Source>(source: &mut S, taken: &mut u32) -> Result<i32, Misread> {
        read_word::<S, Numeral>(source, taken)
    }
}

/// The next word as a boolean, `T` or `F`.
impl Readable for bool {
    ghost read_of = { boolean_read };

    ghost left_by = { rest };

    ghost parted = { Parted };

    fn read<S: Source>(source: &mut S, taken: &mut u32) -> Result<bool, Misread> {
        read_word::<S, Letter>(source, taken)
    }
}

/// The next byte, blank or not, as a signed number; at the end -1, which is no misread.
impl Readable for i8 {
    ghost read_of = { character_read };

    ghost left_by = { behind };

    ghost parted = { FirstParted };

    fn read<S: Source>(source: &mut S, taken: &mut u32) -> Result<i8, Misread> {
        let next = source.take();
        *taken = taken.saturating_add(u32::from(next.is_some()));
        Ok(next.map_or(-1, signed_byte))
    }
}

impl WithNull for i32 {
    const ABSENT: i32 = 0;

    ghost ABSENT = { pos 0 };
}

impl WithNull for bool {
    const ABSENT: bool = false;

    ghost ABSENT = { false };
}

impl WithNull for i8 {
    const ABSENT: i8 = 0;

    ghost ABSENT = { pos 0 };
}

/// Reads a value as a sheet sees it, which can't fail: the null of the kind where no value is read, and the state in which the stream is left.
pub fn read_value<T: WithNull, S: Source>(source: &mut S, taken: &mut u32) -> ReadValue<T>
    ensures told { result ≡ seen T.ABSENT (T.read_of (S.waiting source.old)) }
    ensures waits { S.waiting source.new ≡ T.left_by (S.waiting source.old) }
    ensures parts { T.parted (S.waiting source.old) (S.waiting source.new) }
    ensures took { Took (S.waiting source.old) (S.waiting source.new) taken.old taken.new }
{
    match T::read(source, taken) {
        Ok(value) => ReadValue::good(value),
        Err(Misread::BadWord) => ReadValue::bad_word(T::ABSENT),
        Err(Misread::Ended) => ReadValue::ended(T::ABSENT),
    }
}

/// The signed number that has the bits of `byte`.
fn signed_byte(byte: u8) -> i8
    ensures { result ≡ signed_byte byte }
{
    byte.cast_signed()
}
