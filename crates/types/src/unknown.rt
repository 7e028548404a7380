//! Numbers of a file that stand for nothing.
use std::error::Error;
use std::fmt;

/// A number that no kind, shape or form has, where one was asked for.
#[derive(Clone, Copy, Debug, PartialEq, Eq, Hash)]
pub struct UnknownNumber(pub u16);

impl fmt::Display for UnknownNumber {
    fn fmt<W: fmt::Write>(&self, f: &mut fmt::Formatter<W>) -> fmt::Result {
        write!(f, "the number {} stands for nothing", self.0)
    }
}

impl Error for UnknownNumber {}
