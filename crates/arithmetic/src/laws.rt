//! Laws of the operators, each the contract of a function that does nothing.
ghost use Rattle.arithmetic.specs.Laws.{Division, LowBytes};

/// Quotient and remainder belong together, whatever the signs: `x` is quotient times `y` and the remainder, which is nearer to 0 than `y` and signed as `x`.
pub fn division_holds()
    ensures { Division }
{}

/// The character that an integer is cast to lies from -128 to 127, and differs from it by a multiple of 256.
pub fn low_bytes_hold()
    ensures { LowBytes }
{}
