//! Decimals of numbers that are not negative.
ghost use Rattle.std.specs.Prelude.{◌≡◌, ℕ, ◌+◌, ◌≤◌, length, decimal};
ghost use Rattle.element.specs.Cells.{put};

use itoa::write_digits;

/// How many digits the decimal has.
#[tactic(auto, using(crate::proofs::Digits::length_digit, crate::proofs::Digits::length_log))]
pub(crate) fn digit_count(n: u32) -> usize
    ensures value { result ≡ length (decimal n) }
    ensures few { result ≤ 10 }
{
    if n < 10 { 1 } else { n.ilog10() as usize + 1 }
}

/// Writes the decimal from `at` on, and says where it ends.
#[tactic(auto, using(crate::proofs::Digits::length_digit, crate::proofs::Digits::put_digit))]
pub(crate) fn write_decimal(n: u32, output: &mut [u8], at: usize) -> usize
    requires { at + length (decimal n) ≤ length output.old }
    ensures written { output.new ≡ put output.old at (decimal n) }
    ensures end { result ≡ at + length (decimal n) }
{
    // most numbers are short: one digit is written as it is
    if n < 10 {
        output[at] = b'0' + n as u8;
        return at + 1;
    }
    let end = at + digit_count(n);
    write_digits(u64::from(n), output, end);
    end
}
