//! Bytes in memory as a source.
ghost use Rattle.std.specs.Prelude.{◌≤◌, length};

use crate::refusal::SourceRefusal;
use crate::source::Source;

/// A longer text is refused.
const MOST_BYTES: usize = 16_777_216;

/// Lent bytes, of which those that are taken are left out.
#[derive(Drop)]
pub struct Text<'a> {
    left: &'a [u8],
    ghost short: { length left.now ≤ 16777216 },
}

impl<'a> Text<'a> {
    ghost use Rattle.source.specs.Making.{Makes};
    ghost use Rattle.source.specs.Texts.{unread};

    /// All of `bytes`, which may be up to 16,777,216.
    pub fn new(bytes: &'a [u8]) -> Result<Text<'a>, SourceRefusal>
        ensures { Makes unread bytes.now (length bytes.now) 16777216 result }
    {
        if bytes.len() > MOST_BYTES {
            return Err(SourceRefusal::TooLong);
        }
        Ok(Text { left: bytes })
    }
}

impl<'a> Source for Text<'a> {
    ghost use Rattle.source.specs.Texts.{unread, unread_short};

    ghost waiting = { unread };

    ghost bounded = { unread_short };

    fn peek(&self) -> Option<u8> {
        self.left.first().copied()
    }

    fn take(&mut self) -> Option<u8> {
        let (first, left) = self.left.split_first()?;
        self.left = left;
        Some(*first)
    }
}
