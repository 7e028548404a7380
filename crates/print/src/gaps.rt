//! The spaces between the texts of a vector or a matrix.
ghost use Rattle.std.specs.Prelude.{◌≡◌, ◌+◌, ◌≤◌, length};
ghost use Rattle.element.specs.Cells.{put};
ghost use Rattle.print.specs.Texts.{gap};

/// Writes what stands before the k-th text, and says where it ends.
pub fn write_gap(output: &mut [u8], at: usize, k: usize) -> usize
    requires { at + length (gap k) ≤ length output.old }
    ensures written { output.new ≡ put output.old at (gap k) }
    ensures end { result ≡ at + length (gap k) }
{
    if k == 0 {
        return at;
    }
    output[at] = b' ';
    at + 1
}
