//! Where indices are read: in the integer table beside the table at work, or in that table itself.
ghost use Rattle.std.specs.Prelude.{◌≡◌, ℕ, ◌+◌, ◌<◌, ◌≤◌, List, length, ℤ, pos, slice_index_or, refl};
ghost use Rattle.element.specs.Cells.{cells};

use element::Element;

/// Where the integer table is, seen from a table of elements of type E.
pub trait Integers<E> {
    // the integers, where the table at work holds these elements
    ghost seen: { Self → List E → List ℤ };

    // integers stay where the cells of the table at work stay
    ghost kept: { (s : Self) (T S : List E) (at n : ℕ) → cells S at n ≡ cells T at n → cells (seen s S) at n ≡ cells (seen s T) at n };

    // there are as many integers as long as the table keeps its length
    ghost long: { (s : Self) (T S : List E) → length S ≡ length T → length (seen s S) ≡ length (seen s T) };

    // and they are seen of a part of the table that has their cells
    ghost part: { (s : Self) (T S : List E) (at n : ℕ) → at + n ≤ length S → at + n ≤ length (seen s T) → at + n ≤ length (seen s S) };

    /// The integer in the cell k behind `at`.
    fn integer(&self, table: &[E], at: usize, k: usize) -> i32
        requires { at + k < length (seen self.now table.now) }
        ensures { result ≡ slice_index_or (seen self.now table.now) (at + k) (pos 0) };
}

/// The integer table lies beside the table at work, whatever its kind.
#[derive(Drop)]
pub struct Beside<'a> {
    pub integers: &'a [i32],
}

impl<'a, E: Element> Integers<E> for Beside<'a> {
    ghost seen = { λ s T. s.integers.now };

    ghost kept = { λ s T S at n e. refl };

    ghost long = { λ s T S e. refl };

    ghost part = { λ s T S at n e h. h };

    fn integer(&self, table: &[E], at: usize, k: usize) -> i32 {
        self.integers[at + k]
    }
}

/// The integer table is the table at work.
#[derive(Clone, Copy)]
pub struct Within;

impl Integers<i32> for Within {
    ghost seen = { λ s T. T };

    ghost kept = { λ s T S at n e. e };

    ghost long = { λ s T S e. e };

    ghost part = { λ s T S at n e h. e };

    fn integer(&self, table: &[i32], at: usize, k: usize) -> i32 {
        table[at + k]
    }
}
