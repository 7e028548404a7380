//! What a value is apart from its elements.
use types::{Kind, Shape};

/// The kind, the shape and the sizes of a value: `r` rows of `s` columns.
#[derive(Clone, Copy, Debug, PartialEq, Eq)]
pub struct Layout {
    pub kind: Kind,
    pub shape: Shape,
    pub r: usize,
    pub s: usize,
}
