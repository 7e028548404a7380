//! What a layout says of a value.
ghost use Rattle.std.specs.Prelude.{◌≡◌, ℕ, ◌*◌, ◌≤◌, true};
ghost use Rattle.meaning.specs.Values.{scalar_of, vector_of, area, known, fixed, within, lawful};
ghost use Rattle.types.specs.Types.{same_kind, same_shape};
ghost use Rattle.types.specs.Typings.{typing as typing_of, matches, matches_spread};

use crate::layouts::Layout;
use types::{Kind, Shape, Typing};

impl Layout {
    /// The layout of a scalar.
    pub fn scalar(kind: Kind) -> Layout
        ensures { result ≡ scalar_of kind }
    {
        Layout {
            kind,
            shape: Shape::Scalar,
            r: 1,
            s: 1,
        }
    }

    /// The layout of a vector.
    pub fn vector(kind: Kind, s: usize) -> Layout
        ensures { result ≡ vector_of kind s }
    {
        Layout {
            kind,
            shape: Shape::Vector,
            r: 1,
            s,
        }
    }

    /// Whether it has this shape.
    pub fn is(self, shape: Shape) -> bool
        ensures { result ≡ same_shape shape self.shape }
    {
        shape == self.shape
    }

    /// Whether it is of this kind.
    pub fn is_of(self, kind: Kind) -> bool
        ensures { result ≡ same_kind kind self.kind }
    {
        kind == self.kind
    }

    /// Whether it has the sizes that its shape fixes, and an interval is of integers.
    fn has_fixed_sizes(self) -> bool
        ensures { result ≡ fixed self }
    {
        match self.shape {
            Shape::Scalar => self.r == 1 && self.s == 1,
            Shape::Vector => self.r == 1,
            Shape::Matrix => true,
            Shape::Interval => self.is_of(Kind::Integer) && self.r == 1 && self.s == 2,
        }
    }

    /// Whether rows, columns and elements are at most the width.
    pub fn is_within(self, width: u16) -> bool
        ensures { result ≡ within width self.r self.s }
    {
        let width = usize::from(width);
        self.r <= width && self.s <= width && self.r * self.s <= width
    }

    /// Whether a value of this layout may exist.
    pub fn is_lawful(self, width: u16) -> bool
        ensures { result ≡ lawful width self }
    {
        self.has_fixed_sizes() && self.is_within(width)
    }

    /// How many elements the value has.
    pub fn area(self, width: u16) -> usize
        requires { lawful width self ≡ true }
        ensures value { result ≡ area self }
        ensures small { result ≤ width }
    {
        self.r * self.s
    }

    /// Its kind and shape alone, as a typing.
    pub fn typing(self) -> Typing
        ensures { result ≡ typing_of self.kind self.shape None None }
    {
        Typing {
            kind: self.kind,
            shape: self.shape,
            r: None,
            s: None,
        }
    }

    /// Whether the sizes of the two are equal.
    pub fn matches(self, other: Layout) -> bool
        ensures { result ≡ matches (known self) (known other) }
    {
        self.r == other.r && self.s == other.s
    }

    /// The same, where a scalar is spread over the other.
    pub fn matches_spread(self, other: Layout) -> bool
        ensures { result ≡ matches_spread (known self) (known other) }
    {
        self.is(Shape::Scalar) || other.is(Shape::Scalar) || self.matches(other)
    }
}
