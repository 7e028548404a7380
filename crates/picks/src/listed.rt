//! Lists of indices that are read one by one.
ghost use Rattle.std.specs.Prelude.{◌≡◌, ◌+◌, ◌^◌, ◌<◌, List, length, ℤ, pos, slice_index_or};
ghost use Rattle.picks.specs.Indices.{indices_of, IndexBelow, first_outside, AllInside, place_of};
ghost use Rattle.picks.specs.Picks.{told};

use crate::indices::{Index, Outside, nth_between, place_among};
use crate::places::Integers;
use element::Element;
use std::marker::Model;

/// A list of indices, with where its integers are and the cells of the table at work. A contract sees the indices.
#[derive(Drop)]
pub struct Listed<'i, 't, E: Element, I: Integers<E>> {
    index: Index,
    integers: &'i I,
    table: &'t [E],
}

impl<'i, 't, E: Element, I: Integers<E>> Model for Listed<'i, 't, E, I> {
    ghost Value = { List ℤ };

    ghost view = { λ l. indices_of l.index (I.Integers.seen l.integers.now l.table.now) };

    ghost invariant = { λ l. IndexBelow l.index (length (I.Integers.seen l.integers.now l.table.now)) };
}

impl<'i, 't, E: Element, I: Integers<E>> Listed<'i, 't, E, I> {
    /// The indices, whose cells have to lie among the integers that are seen.
    pub fn new(index: Index, integers: &'i I, table: &'t [E]) -> Self
        requires { IndexBelow index (length (I.Integers.seen integers.now table.now)) }
        ensures { result ≡ indices_of index (I.Integers.seen integers.now table.now) }
    {
        Listed {
            index,
            integers,
            table,
        }
    }

    /// How many indices there are.
    pub fn count(&self) -> usize
        ensures { result ≡ length self.now }
    {
        self.index.count()
    }

    /// The k-th index, counted from 0.
    pub fn at(&self, k: usize) -> i32
        requires { k < length self.now }
        ensures { result ≡ slice_index_or self.now k (pos 0) }
    {
        match self.index {
            Index::Cells { at, .. } => self.integers.integer(self.table, at, k),
            Index::Interval { low, high } => nth_between(low, high, k),
        }
    }

    /// Tells the place of the first index that names none of n elements; `before` places were counted before this list.
    pub fn check(&self, n: usize, before: usize) -> Result<(), Outside>
        requires { before + length self.now < 2 ^ 64 }
        ensures { result ≡ told (first_outside (before + 1) n self.now) }
    {
        // by number: the indices of an interval stand in no slice
        for k in 0..self.count() {
            if place_among(self.at(k), n).is_none() {
                return Err(Outside {
                    place: before + k + 1,
                });
            }
        }
        Ok(())
    }

    /// The place from 0 that the k-th index names, where all indices name one of n elements.
    pub fn place(&self, k: usize, n: usize) -> usize
        requires inside { AllInside n self.now }
        requires one { k < length self.now }
        ensures value { result ≡ place_of (slice_index_or self.now k (pos 0)) }
        ensures bound { result < n }
    {
        // not tested again: `check` has passed
        self.at(k) as usize - 1
    }
}
