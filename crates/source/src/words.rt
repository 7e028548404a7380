//! Blanks and words at the front of a source.
ghost use Rattle.std.specs.Prelude.{◌≡◌, ℕ, ◌+◌, List, length, fold, Result};
ghost use Rattle.source.specs.Taking.{Took};
ghost use Rattle.source.specs.Wanted.{NextIf};
ghost use Rattle.source.specs.Words.{blank, after_blanks, run, after_run, word, rest, Parted};
ghost use Rattle.source.specs.declared.state.Misread.{Misread as Misreads};

use crate::source::Source;
use crate::state::Misread;

/// What is made of a word, byte by byte.
pub trait Scanner: Sized {
    /// What a whole word may write.
    type Value;

    // What it is before the first byte.
    ghost empty: { Self };

    // What it is after one more byte.
    ghost after: { Self → ℕ → Self };

    // What it tells where the word ends.
    ghost ended: { Self → Result Self.Value Misreads };

    // What a whole word tells.
    ghost told: { List ℕ → Result Self.Value Misreads };

    /// No byte of the word yet.
    fn empty_word() -> Self
        ensures { result ≡ empty };

    /// Takes in one more byte of the word.
    fn push(self, byte: u8) -> Self
        ensures { result ≡ after self byte };

    /// What is told of a word that ends here.
    fn finish(self) -> Result<Self::Value, Misread>
        ensures { result ≡ ended self };

    // Byte by byte it comes to what the word tells.
    ghost tells: { (w : List ℕ) → ended (fold after empty w) ≡ told w };
}

/// Whether `byte` stands between words: a space, a tab, a line feed or a carriage return.
fn is_blank(byte: u8) -> bool
    ensures { result ≡ blank byte }
{
    matches!(byte, b' ' | b'\t' | b'\n' | b'\r')
}

/// Takes the first byte that waits, if there is one and it is `wanted`.
fn next_if<S: Source, F: FnOnce(u8) -> bool>(s: &mut S, wanted: F) -> Option<u8>
    requires { F.IsAlwaysCallable wanted }
    ensures { NextIf (F.post wanted) (S.waiting s.old) result (S.waiting s.new) }
{
    let byte = s.peek().filter(|byte| wanted(*byte))?;
    let _ = s.take();
    Some(byte)
}

/// Takes the blanks in front, and tells how many there were.
fn skip_blanks<S: Source>(s: &mut S) -> u32
    ensures waits { S.waiting s.new ≡ after_blanks (S.waiting s.old) }
    ensures took { Took (S.waiting s.old) (S.waiting s.new) 0 result }
    ensures count { result + length (S.waiting s.new) ≡ length (S.waiting s.old) }
{
    let mut count = 0;
    while let Some(_) = next_if(s, is_blank) {
        count += 1;
    }
    count
}

/// Takes the bytes before the next blank, which go into a scanner, and tells how many there were.
fn scan_run<S: Source, C: Scanner>(s: &mut S) -> (C, u32)
    ensures value { result.0 ≡ fold C.after C.empty (run (S.waiting s.old)) }
    ensures waits { S.waiting s.new ≡ after_run (S.waiting s.old) }
    ensures took { Took (S.waiting s.old) (S.waiting s.new) 0 result.1 }
    ensures count { result.1 + length (S.waiting s.new) ≡ length (S.waiting s.old) }
{
    let mut scanner = C::empty_word();
    let mut count = 0;
    while let Some(byte) = next_if(s, |byte| !is_blank(byte)) {
        scanner = scanner.push(byte);
        count += 1;
    }
    (scanner, count)
}

/// Takes blanks and the next word, tells what the word writes, and leaves the byte after it.
#[tactic(auto, using(crate::proofs::Cuts::parts, crate::proofs::Cuts::from_front))]
pub fn read_word<S: Source, C: Scanner>(s: &mut S, taken: &mut u32) -> Result<C::Value, Misread>
    ensures told { result ≡ C.told (word (S.waiting s.old)) }
    ensures waits { S.waiting s.new ≡ rest (S.waiting s.old) }
    ensures parts { Parted (S.waiting s.old) (S.waiting s.new) }
    ensures took { Took (S.waiting s.old) (S.waiting s.new) taken.old taken.new }
{
    let blanks = skip_blanks(s);
    let (scanner, letters) = scan_run::<S, C>(s);
    *taken = taken.saturating_add(blanks + letters);
    scanner.finish()
}
