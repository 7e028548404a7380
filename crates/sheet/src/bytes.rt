//! Little-endian numbers in a slice of bytes.
ghost use Rattle.std.specs.Prelude.{◌≡◌, ℕ, ◌+◌, ◌≤◌, length, ℤ};
ghost use Rattle.std.specs.Int.{w32};
ghost use Rattle.std.proofs.Common.{of_z};
ghost use Rattle.sheet.specs.Bytes.{le2, le4, here2, here4, two, four};

pub fn read_u16(s: &[u8], i: usize) -> u16
    requires { i + 2 ≤ length s.now }
    ensures value { result ≡ two s.now i }
    ensures bytes { le2 result ≡ here2 s.now i }
{
    u16::from_le_bytes([s[i], s[i + 1]])
}

pub fn read_u32(s: &[u8], i: usize) -> u32
    requires { i + 4 ≤ length s.now }
    ensures value { result ≡ four s.now i }
    ensures bytes { le4 result ≡ here4 s.now i }
{
    u32::from_le_bytes([s[i], s[i + 1], s[i + 2], s[i + 3]])
}

pub fn read_i32(s: &[u8], i: usize) -> i32
    requires { i + 4 ≤ length s.now }
    ensures { le4 (of_z w32 result) ≡ here4 s.now i }
{
    read_u32(s, i).cast_signed()
}
