//! What the kinds of cells have in common.
ghost use Rattle.std.specs.Prelude.{◌≡◌, ℕ, ◌+◌, ◌≤◌, List, length, Decides};
ghost use Rattle.types.specs.declared.kinds.Kind.{Kind};
ghost use Rattle.element.specs.Cells.{put};

use types::Kind as CellKind;

/// An element of a value: what one cell of a table holds. A table has cells of one kind.
pub trait Element: Copy + Eq {
    /// What pads a value that is too short, and what a variable without a value holds.
    const NULL: Self;

    ghost NULL: { Self };

    /// How many bytes the longest text of an element has.
    const LONGEST: usize;

    ghost LONGEST: { ℕ };

    /// The kind of the tables that hold such elements.
    const KIND: CellKind;

    ghost KIND: { Kind };

    // the bytes that an element prints as
    ghost text: { Self → List ℕ };

    /// How many bytes the element's text has.
    fn text_len(self) -> usize
        ensures { result ≡ length (text self) };

    /// Writes the element's text into an output from `at` on, and says where it ends.
    fn write_text(self, output: &mut [u8], at: usize) -> usize
        requires { at + length (text self) ≤ length output.old }
        ensures written { output.new ≡ put output.old at (text self) }
        ensures end { result ≡ at + length (text self) };

    // `==` answers whether the two are one element
    ghost same: { (x y : Self) → Decides (Self.eq x y) (x ≡ y) };

    // a clone does not fail, and is the element itself
    ghost infallible: { (x : Self) → Self.is_infallible x };

    ghost exact: { (x y : Self) → Self.is_clone x y → y ≡ x };

    // so that lengths of texts can be added up
    ghost narrow: { LONGEST ≤ 255 };

    // no text is longer than the longest
    ghost brief: { (x : Self) → length (text x) ≤ LONGEST };
}
