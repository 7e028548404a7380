//! Heads and types in words.
use sheet::{Head, Kind, Shape, Size, Typing};
use std::fmt;

/// Prints a head, as `width 16, returns integer vector of any length`.
#[derive(Clone, Copy)]
pub struct HeadWords(pub Head);

/// Prints a type, as `boolean matrix of 2 by any`.
#[derive(Clone, Copy)]
pub struct TypingWords(pub Typing);

#[derive(Clone, Copy)]
struct SizeWords(Size);

pub(crate) fn kind_word(kind: Kind) -> &'static str {
    match kind {
        Kind::Boolean => "boolean",
        Kind::Character => "character",
        Kind::Integer => "integer",
    }
}

impl fmt::Display for SizeWords {
    fn fmt<W: fmt::Write>(&self, f: &mut fmt::Formatter<W>) -> fmt::Result {
        match self.0 {
            None => write!(f, "any"),
            Some(n) => write!(f, "{n}"),
        }
    }
}

impl fmt::Display for TypingWords {
    fn fmt<W: fmt::Write>(&self, f: &mut fmt::Formatter<W>) -> fmt::Result {
        let kind = kind_word(self.0.kind);
        let r = SizeWords(self.0.r);
        let s = SizeWords(self.0.s);
        match self.0.shape {
            Shape::Scalar => write!(f, "{kind} scalar"),
            Shape::Vector => match self.0.s {
                None => write!(f, "{kind} vector of any length"),
                Some(n) => write!(f, "{kind} vector of length {n}"),
            },
            Shape::Matrix => write!(f, "{kind} matrix of {r} by {s}"),
            Shape::Interval => write!(f, "{kind} interval"),
        }
    }
}

impl fmt::Display for HeadWords {
    fn fmt<W: fmt::Write>(&self, f: &mut fmt::Formatter<W>) -> fmt::Result {
        let Head {
            width,
            result,
            form: _,
        } = self.0;
        write!(f, "width {width}, returns {}", TypingWords(result))
    }
}
