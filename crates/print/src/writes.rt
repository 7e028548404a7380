//! Texts written into an output that has room for them.
ghost use Rattle.std.specs.Prelude.{◌≡◌, ℕ, ◌+◌, ◌*◌, ◌≤◌, length};
ghost use Rattle.element.specs.Cells.{put, cells};
ghost use Rattle.print.specs.Texts.{vector_text, matrix_text};

use crate::gaps::write_gap;
use element::Element;

/// Writes the vector's text into the output from `from` on, and says where it ends.
pub fn write_vector<E: Element>(vector: &[E], output: &mut [u8], from: usize) -> usize
    requires { from + length (vector_text E.Element.text vector.now) ≤ length output.old }
    ensures written { output.new ≡ put output.old from (vector_text E.Element.text vector.now) }
    ensures end { result ≡ from + length (vector_text E.Element.text vector.now) }
{
    output[from] = b'[';
    let mut end = from + 1;
    for (k, x) in vector.iter().enumerate() {
        let start = write_gap(output, end, k);
        end = x.write_text(output, start);
    }
    output[end] = b']';
    end + 1
}

// beside `write_vector`: a row is no element, and one body for both would take a closure with a contract longer than it
/// Writes the text of the r × s matrix from `at` on into the output from `from` on, and says where it ends.
pub fn write_matrix<E: Element>(
    table: &[E],
    at: usize,
    r: usize,
    s: usize,
    output: &mut [u8],
    from: usize,
) -> usize
    requires within { at + r * s ≤ length table.now }
    requires fits { from + length (matrix_text E.Element.text r s (cells table.now at (r * s))) ≤ length output.old }
    ensures written { output.new ≡ put output.old from (matrix_text E.Element.text r s (cells table.now at (r * s))) }
    ensures end { result ≡ from + length (matrix_text E.Element.text r s (cells table.now at (r * s))) }
{
    output[from] = b'[';
    let mut end = from + 1;
    // by the row's number: a row may be 0 cells wide, and `chunks_exact` refuses that
    for k in 0..r {
        let start = write_gap(output, end, k);
        let row = at + k * s;
        end = write_vector(&table[row..row + s], output, start);
    }
    output[end] = b']';
    end + 1
}
