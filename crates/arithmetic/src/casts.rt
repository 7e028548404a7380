//! Casts between booleans, characters and integers.
ghost use Rattle.std.specs.Prelude.{◌≡◌};
ghost use Rattle.arithmetic.specs.Casts.{nonzero, one_or_zero, low_byte};

use crate::operators::Function;

/// A type whose values can be cast to type Y.
pub trait CastTo<Y>: Copy {
    /// What a value is as a Y.
    ghost casts: { Self → Y };

    /// The value as a Y.
    fn cast(self) -> Y
        ensures { result ≡ casts self };
}

/// A cast to its own kind keeps a value.
impl<X: Copy> CastTo<X> for X {
    ghost casts = { λ x. x };

    fn cast(self) -> X {
        self
    }
}

// An impl for each pair of kinds: one over `From<bool>` would overlap the cast of a kind to its own.
impl CastTo<i32> for bool {
    ghost casts = { one_or_zero };

    fn cast(self) -> i32 {
        i32::from(self)
    }
}

impl CastTo<i8> for bool {
    ghost casts = { one_or_zero };

    fn cast(self) -> i8 {
        i8::from(self)
    }
}

impl CastTo<bool> for i8 {
    ghost casts = { nonzero };

    fn cast(self) -> bool {
        self != 0
    }
}

impl CastTo<i32> for i8 {
    ghost casts = { λ x. x };

    fn cast(self) -> i32 {
        i32::from(self)
    }
}

impl CastTo<bool> for i32 {
    ghost casts = { nonzero };

    fn cast(self) -> bool {
        self != 0
    }
}

impl CastTo<i8> for i32 {
    ghost casts = { low_byte };

    fn cast(self) -> i8 {
        (self.rem_euclid(256) as u8).cast_signed()
    }
}

/// The cast as a function of one element.
#[derive(Clone, Copy)]
pub struct Cast;

impl<X: CastTo<Y>, Y> Function<X, Y> for Cast {
    ghost gives = { λ _ x. X.CastTo.casts x };

    fn apply(&self, x: X) -> Y {
        x.cast()
    }
}
