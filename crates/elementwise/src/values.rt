//! Operators on integers whose value can be told apart from the test that it fits 32 bits.
ghost use Rattle.std.specs.Prelude.{◌≡◌, true, ℤ, ◌+ℤ◌, ◌-ℤ◌};
ghost use Rattle.elementwise.specs.Sure.{Within};

use arithmetic::integers::{Difference, Sum};

/// A function of two integers, with a test that its value fits 32 bits apart from the value: a loop over either alone has no early exit.
pub trait Sure {
    /// The exact value.
    ghost value: { Self → ℤ → ℤ → ℤ };

    /// Whether the value fits 32 bits.
    fn fits(&self, x: i32, y: i32) -> bool
        ensures { result ≡ true → Within (value self.now x y) };

    /// The value, where it fits.
    fn value_of(&self, x: i32, y: i32) -> i32
        requires { Within (value self.now x y) }
        ensures { result ≡ value self.now x y };
}

impl Sure for Sum {
    ghost value = { λ _ x y. x +ℤ y };

    fn fits(&self, x: i32, y: i32) -> bool {
        x.checked_add(y).is_some()
    }

    fn value_of(&self, x: i32, y: i32) -> i32 {
        x + y
    }
}

impl Sure for Difference {
    ghost value = { λ _ x y. x -ℤ y };

    fn fits(&self, x: i32, y: i32) -> bool {
        x.checked_sub(y).is_some()
    }

    fn value_of(&self, x: i32, y: i32) -> i32 {
        x - y
    }
}
