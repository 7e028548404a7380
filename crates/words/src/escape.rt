//! Bytes of any content, as text on one line.
use std::fmt;

/// Prints itself in quotes: a printable byte as it is, any other by an escape.
#[derive(Clone, Copy, Debug)]
pub struct Escaped<'a>(pub &'a [u8]);

impl fmt::Display for Escaped<'_> {
    fn fmt<W: fmt::Write>(&self, f: &mut fmt::Formatter<W>) -> fmt::Result {
        write!(f, "\"")?;
        for b in self.0 {
            match b {
                // In double quotes an apostrophe needs no escape, which std would give it.
                b'\'' => write!(f, "'")?,
                b'\t' | b'\n' | b'\r' | b' '..=b'~' => write!(f, "{}", b.escape_ascii())?,
                // by the number at once: `escape_ascii` hands such a byte on in four steps
                _ => write!(f, "\\x{b:02x}")?,
            }
        }
        write!(f, "\"")
    }
}
