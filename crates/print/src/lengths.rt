//! How long texts are, before they are written.
ghost use Rattle.std.specs.Prelude.{◌≡◌, ℕ, ◌+◌, ◌*◌, ◌^◌, ◌<◌, ◌≤◌, length, Decides};
ghost use Rattle.element.specs.Cells.{cells};
ghost use Rattle.print.specs.Texts.{vector_text, matrix_text};

use element::Element;

/// The length of the text of the vector of n cells from `at` on.
pub fn vector_len<E: Element>(table: &[E], at: usize, n: usize) -> usize
    requires within { at + n ≤ length table.now }
    requires few { n < 2 ^ 32 }
    ensures value { result ≡ length (vector_text E.Element.text (cells table.now at n)) }
    ensures small { result ≤ 2 + 256 * n }
{
    let texts: usize = table[at..at + n].iter().map(|x| x.text_len()).sum();
    2 + n.saturating_sub(1) + texts
}

/// Whether the text of the vector of n cells from `at` on has at most `room` bytes. It is measured only where the longest texts might not fit.
pub fn vector_fits<E: Element>(table: &[E], at: usize, n: usize, room: usize) -> bool
    requires within { at + n ≤ length table.now }
    requires few { n < 2 ^ 32 }
    ensures { Decides result (length (vector_text E.Element.text (cells table.now at n)) ≤ room) }
{
    2 + n * (E::LONGEST + 1) <= room || vector_len(table, at, n) <= room
}

/// The length of the text of the r × s matrix from `at` on.
pub fn matrix_len<E: Element>(table: &[E], at: usize, r: usize, s: usize) -> usize
    requires within { at + r * s ≤ length table.now }
    requires rows { r < 2 ^ 17 }
    requires columns { s < 2 ^ 17 }
    ensures { result ≡ length (matrix_text E.Element.text r s (cells table.now at (r * s))) }
{
    let mut total = 2 + r.saturating_sub(1);
    // by the row's number: a row may be 0 cells wide, and `chunks_exact` refuses that
    for k in 0..r {
        total += vector_len(table, at + k * s, s);
    }
    total
}
