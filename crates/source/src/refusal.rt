//! Why a source is not made.
ghost use Rattle.std.specs.Prelude.{◌≡◌, Some};
ghost use Rattle.source.specs.Refusals.{refusal_number, refusal_text};

use std::error::Error;
use std::fmt;

/// Why bytes or readings are refused as a source.
#[derive(Clone, Copy, PartialEq, Eq, Debug)]
pub enum SourceRefusal {
    /// There are more than a source may hold.
    TooLong = 12,
}

impl SourceRefusal {
    /// The number by which a host is told.
    pub fn number(self) -> u8
        ensures { result ≡ refusal_number self }
    {
        self as u8
    }

    /// The refusal in words.
    // By hand: `Display` prints by it, and its clause tells the words.
    pub fn text(self) -> &'static str
        ensures { result.now ≡ refusal_text self }
    {
        match self {
            SourceRefusal::TooLong => "more bytes or readings than a source may hold",
        }
    }
}

impl fmt::Display for SourceRefusal {
    ghost output = { λ r. Some (refusal_text r) };

    fn fmt<W: fmt::Write>(&self, f: &mut fmt::Formatter<W>) -> fmt::Result {
        f.write_str(self.text())
    }
}

impl Error for SourceRefusal {}
