//! Sizes: their numbers in a file, and what follows for a size from others, each of which may be unknown.
ghost use Rattle.std.specs.Prelude.{◌≡◌};
ghost use Rattle.types.specs.Types.{size_number, written, agree, fits_in, plus, larger, capped, within, area_within};

/// A count of rows or columns, where it is known.
pub type Size = Option<u16>;

/// The number that stands for a size in a file: 65535 for one that is not known.
pub fn size_number(size: Size) -> u16
    ensures { result ≡ size_number size }
{
    size.unwrap_or(65535)
}

/// The size that a number in a file stands for.
pub fn size_from(number: u16) -> Size
    ensures { result ≡ written number }
{
    match number {
        65535 => None,
        _ => Some(number),
    }
}

/// Whether the two may be equal, as far as they are known.
pub fn agree(x: Size, y: Size) -> bool
    ensures { result ≡ agree x y }
{
    x.zip(y).is_none_or(|(m, n)| m == n)
}

/// Whether the first may be at most the second, as far as they are known.
pub fn fits_in(x: Size, y: Size) -> bool
    ensures { result ≡ fits_in x y }
{
    match (x, y) {
        (Some(m), Some(n)) => m <= n,
        _ => true,
    }
}

/// One after the other, or nothing where 16 bits do not hold the sum.
pub fn plus(x: Size, y: Size) -> Option<Size>
    ensures { result ≡ capped (plus x y) }
{
    match (x, y) {
        (Some(m), Some(n)) => m.checked_add(n).map(Some),
        _ => Some(None),
    }
}

/// The larger of the two, where both are known.
pub fn larger(x: Size, y: Size) -> Size
    ensures { result ≡ larger x y }
{
    x.zip(y).map(|(m, n)| m.max(n))
}

/// Whether it is not known to be beyond the width.
pub fn is_within(size: Size, width: u16) -> bool
    ensures { result ≡ within width size }
{
    size.is_none_or(|n| n <= width)
}

/// Whether a value of r rows and s columns is not known to have more elements than the width.
pub fn is_area_within(width: u16, r: Size, s: Size) -> bool
    ensures { result ≡ area_within width r s }
{
    match (r, s) {
        (Some(m), Some(n)) => u32::from(m) * u32::from(n) <= u32::from(width),
        _ => true,
    }
}
