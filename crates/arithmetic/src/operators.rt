//! What an operator is: a value that stands for a function of one element or of two.
ghost use Rattle.std.specs.Prelude.{◌≡◌};

/// A function of two elements of type X.
pub trait Operator<X, Y> {
    /// The function.
    ghost gives: { Self → X → X → Y };

    /// What the function gives of `x` and `y`.
    fn apply(&self, x: X, y: X) -> Y
        ensures { result ≡ gives self.now x y };
}

/// A function of one element of type X.
pub trait Function<X, Y> {
    /// The function.
    ghost gives: { Self → X → Y };

    /// What the function gives of `x`.
    fn apply(&self, x: X) -> Y
        ensures { result ≡ gives self.now x };
}
