//! Printing: a text that does not fit into what is left of the output is not written at all.
ghost use Rattle.std.specs.Prelude.{ℕ, ◌+◌, ◌*◌, ◌^◌, ◌<◌, ◌≤◌, length};
ghost use Rattle.element.specs.Cells.{cells};
ghost use Rattle.print.specs.Texts.{vector_text, matrix_text, Printed};

use crate::lengths::{matrix_len, vector_fits};
use crate::writes::{write_matrix, write_vector};
use element::Element;

/// Prints an element into the output from `from` on, and says where its text ends.
pub fn print_scalar<E: Element>(value: E, output: &mut [u8], from: usize) -> Option<usize>
    requires { from ≤ length output.old }
    ensures { Printed (E.Element.text value) output.old from result output.new }
{
    let room = output.len() - from;
    if room < E::LONGEST && room < value.text_len() {
        return None;
    }
    Some(value.write_text(output, from))
}

/// Prints the vector of n cells from `at` on into the output from `from` on, and says where its text ends.
pub fn print_vector<E: Element>(
    table: &[E],
    at: usize,
    n: usize,
    output: &mut [u8],
    from: usize,
) -> Option<usize>
    requires within { at + n ≤ length table.now }
    requires few { n < 2 ^ 32 }
    requires place { from ≤ length output.old }
    ensures { Printed (vector_text E.Element.text (cells table.now at n)) output.old from result output.new }
{
    let room = output.len() - from;
    if !vector_fits(table, at, n, room) {
        return None;
    }
    Some(write_vector(&table[at..at + n], output, from))
}

/// Prints the r × s matrix from `at` on into the output from `from` on, and says where its text ends.
pub fn print_matrix<E: Element>(
    table: &[E],
    at: usize,
    r: usize,
    s: usize,
    output: &mut [u8],
    from: usize,
) -> Option<usize>
    requires within { at + r * s ≤ length table.now }
    requires rows { r < 2 ^ 17 }
    requires columns { s < 2 ^ 17 }
    requires place { from ≤ length output.old }
    ensures { Printed (matrix_text E.Element.text r s (cells table.now at (r * s))) output.old from result output.new }
{
    let room = output.len() - from;
    if room < matrix_len(table, at, r, s) {
        return None;
    }
    Some(write_matrix(table, at, r, s, output, from))
}
