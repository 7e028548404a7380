//! The type of a value, as far as it is known.
ghost use Rattle.std.specs.Prelude.{◌≡◌};
ghost use Rattle.types.specs.Types.{room};
ghost use Rattle.types.specs.Typings.{scalar as scalar_of, vector as vector_of, matrix as matrix_of, interval as interval_of, is, of, flat, alone, index as indexes, pairs, type_fits, lawful, span, matches, matches_spread, spread};

use crate::kinds::{Kind, Shape};
use crate::sizes::{Size, agree, is_area_within, is_within};

/// A kind, a shape and two sizes: `r` rows of `s` columns.
#[derive(Clone, Copy, Debug, PartialEq, Eq, Hash)]
pub struct Typing {
    pub kind: Kind,
    pub shape: Shape,
    pub r: Size,
    pub s: Size,
}

impl Typing {
    /// A scalar of this kind.
    pub fn scalar(kind: Kind) -> Typing
        ensures { result ≡ scalar_of kind }
    {
        Typing {
            kind,
            shape: Shape::Scalar,
            r: Some(1),
            s: Some(1),
        }
    }

    /// A vector of this kind and length.
    pub fn vector(kind: Kind, s: Size) -> Typing
        ensures { result ≡ vector_of kind s }
    {
        Typing {
            kind,
            shape: Shape::Vector,
            r: Some(1),
            s,
        }
    }

    /// A matrix of this kind and these sizes.
    pub fn matrix(kind: Kind, r: Size, s: Size) -> Typing
        ensures { result ≡ matrix_of kind r s }
    {
        Typing {
            kind,
            shape: Shape::Matrix,
            r,
            s,
        }
    }

    /// An interval of integers.
    pub fn interval() -> Typing
        ensures { result ≡ interval_of }
    {
        Typing {
            kind: Kind::Integer,
            shape: Shape::Interval,
            r: Some(1),
            s: Some(2),
        }
    }

    /// Whether it has this shape.
    pub fn is(self, shape: Shape) -> bool
        ensures { result ≡ is shape self }
    {
        shape == self.shape
    }

    /// Whether it is of this kind.
    pub fn is_of(self, kind: Kind) -> bool
        ensures { result ≡ of kind self }
    {
        kind == self.kind
    }

    /// Whether it is no interval.
    pub fn is_flat(self) -> bool
        ensures { result ≡ flat self }
    {
        !self.is(Shape::Interval)
    }

    /// Whether it is a scalar of this kind.
    pub fn is_alone(self, kind: Kind) -> bool
        ensures { result ≡ alone kind self }
    {
        self.is_of(kind) && self.is(Shape::Scalar)
    }

    /// Whether it is an integer scalar, an integer vector or an interval.
    pub fn is_index(self) -> bool
        ensures { result ≡ indexes self }
    {
        self.is_of(Kind::Integer) && !self.is(Shape::Matrix)
    }

    /// Whether the two can be worked on element by element: equal shapes, or one of them a scalar.
    pub fn pairs(self, other: Typing) -> bool
        ensures { result ≡ pairs self other }
    {
        self.is_flat()
            && other.is_flat()
            && (self.is(Shape::Scalar) || other.is(Shape::Scalar) || self.shape == other.shape)
    }

    /// Whether the sizes that its shape fixes are so, and an interval is of integers.
    pub fn has_fixed_sizes(self) -> bool
        ensures { result ≡ type_fits self.kind self.shape self.r self.s }
    {
        match self.shape {
            Shape::Scalar => self.r == Some(1) && self.s == Some(1),
            Shape::Vector => self.r == Some(1),
            Shape::Matrix => true,
            Shape::Interval => {
                self.is_of(Kind::Integer) && self.r == Some(1) && self.s == Some(2)
            }
        }
    }

    /// Whether nothing that is known of its sizes is beyond the width.
    pub fn has_room(self, width: u16) -> bool
        ensures { result ≡ room width self.r self.s }
    {
        is_within(self.r, width)
            && is_within(self.s, width)
            && is_area_within(width, self.r, self.s)
    }

    /// Whether a sheet of this width may write this type.
    pub fn is_lawful(self, width: u16) -> bool
        ensures { result ≡ lawful width self }
    {
        self.has_fixed_sizes() && self.has_room(width)
    }

    /// Its length, where it is taken as a vector: that of an interval is open.
    pub fn span(self) -> Size
        ensures { result ≡ span self }
    {
        if self.is(Shape::Interval) {
            None
        } else {
            self.s
        }
    }

    /// Whether the sizes of the two may be equal.
    pub fn matches(self, other: Typing) -> bool
        ensures { result ≡ matches self other }
    {
        agree(self.r, other.r) && agree(self.s, other.s)
    }

    /// The same, where a scalar is spread over the other.
    pub fn matches_spread(self, other: Typing) -> bool
        ensures { result ≡ matches_spread self other }
    {
        self.is(Shape::Scalar) || other.is(Shape::Scalar) || self.matches(other)
    }

    /// What comes of working on the two element by element.
    pub fn spread(self, other: Typing, kind: Kind) -> Typing
        ensures { result ≡ spread kind self other }
    {
        if self.is(Shape::Scalar) {
            Typing { kind, ..other }
        } else if other.is(Shape::Scalar) {
            Typing { kind, ..self }
        } else {
            Typing {
                kind,
                shape: self.shape,
                r: self.r.or(other.r),
                s: self.s.or(other.s),
            }
        }
    }
}
