//! A source of a host's own: one byte, so many times.
ghost use Rattle.std.specs.Prelude.{◌≡◌, min, replicate};
ghost use Rattle.source_trials.specs.Repeats.{repeats, repeats_short};

use source::Source;

const MOST_BYTES: u32 = 16_777_216;

/// `left` times `byte`, and at most 16,777,216 times.
#[derive(Drop)]
pub struct Repeated {
    byte: u8,
    left: u32,
}

impl Repeated {
    /// `byte`, `times` times, or as often as a source may.
    pub(crate) fn new(byte: u8, times: u32) -> Repeated
        ensures { repeats result ≡ replicate (min times 16777216) byte }
    {
        Repeated { byte, left: times }
    }
}

impl Source for Repeated {
    ghost waiting = { repeats };

    ghost bounded = { repeats_short };

    fn peek(&self) -> Option<u8> {
        if self.left > 0 { Some(self.byte) } else { None }
    }

    fn take(&mut self) -> Option<u8> {
        let next = self.peek();
        self.left = self.left.min(MOST_BYTES).saturating_sub(1);
        next
    }
}
