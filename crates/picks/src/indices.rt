//! Lists of indices: integer cells, or the bounds of an interval.
ghost use Rattle.std.specs.Prelude.{◌≡◌, ◌<◌, pos, ◌+ℤ◌};
ghost use Rattle.picks.specs.Indices.{index_count, spanned, place_among};

/// A list of indices into a value; they count from 1.
#[derive(Clone, Copy)]
pub enum Index {
    /// The indices are so many cells of the integer table, from a place on.
    Cells { at: usize, count: usize },
    /// The indices are the integers from `low` to `high`.
    Interval { low: i32, high: i32 },
}

impl Index {
    /// How many indices there are.
    pub fn count(self) -> usize
        ensures { result ≡ index_count self }
    {
        match self {
            Index::Cells { count, .. } => count,
            Index::Interval { low, high } => span(low, high),
        }
    }
}

/// How many integers there are from `low` to `high`.
pub fn span(low: i32, high: i32) -> usize
    ensures { result ≡ spanned low high }
{
    if high < low {
        0
    } else {
        (high as i64 - low as i64 + 1) as usize
    }
}

/// The k-th integer from `low` to `high`, counted from 0.
pub fn nth_between(low: i32, high: i32, k: usize) -> i32
    requires { k < spanned low high }
    ensures { result ≡ low +ℤ pos k }
{
    (low as i64 + k as i64) as i32
}

/// The place from 0 of the element that an index names, if it names one of n.
pub fn place_among(index: i32, n: usize) -> Option<usize>
    ensures { result ≡ place_among n index }
{
    let place = usize::try_from(index).ok()?.checked_sub(1)?;
    (place < n).then_some(place)
}

/// An index that names no element of a value: its place among the indices, from 1.
#[derive(Clone, Copy)]
pub struct Outside {
    pub place: usize,
}
