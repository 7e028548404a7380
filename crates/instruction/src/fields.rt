//! Which fields a code names: every other field but the line is 0.
ghost use Rattle.std.specs.Prelude.{◌≡◌};
ghost use Rattle.instruction.specs.Fields.{fields_of, plain};

use sheet::Row;

/// The fields of a row that its code names.
#[derive(Clone, Copy, Debug, PartialEq, Eq)]
pub enum Fields {
    Nothing,
    A,
    B,
    AN,
    AB,
    AC,
    ABC,
    ABCD,
    ARS,
    ABCRS,
}

/// The fields that this code names; an unknown code names none.
pub fn fields_of(code: u16) -> Fields
    ensures { result ≡ fields_of code }
{
    match code {
        1 => Fields::AN,
        2 | 3 | 28 | 32 | 33 | 34 => Fields::A,
        4 | 10 | 11 => Fields::AC,
        5 | 9 | 22 => Fields::ABC,
        6 | 7 | 8 | 21 | 24 | 27 => Fields::AB,
        25 | 26 | 31 => Fields::B,
        12 => Fields::ARS,
        20 => Fields::ABCRS,
        23 => Fields::ABCD,
        _ => Fields::Nothing,
    }
}

/// Whether each other field of the row is 0.
// No plainer: as a pattern of the row each arm is laid out with a field a line.
pub fn is_plain(fields: Fields, x: Row) -> bool
    ensures { result ≡ plain fields x }
{
    match fields {
        Fields::Nothing => x.a == 0
            && x.b == 0
            && x.c == 0
            && x.d == 0
            && x.r == 0
            && x.s == 0
            && x.n == 0,
        Fields::A => x.b == 0 && x.c == 0 && x.d == 0 && x.r == 0 && x.s == 0 && x.n == 0,
        Fields::B => x.a == 0 && x.c == 0 && x.d == 0 && x.r == 0 && x.s == 0 && x.n == 0,
        Fields::AN => x.b == 0 && x.c == 0 && x.d == 0 && x.r == 0 && x.s == 0,
        Fields::AB => x.c == 0 && x.d == 0 && x.r == 0 && x.s == 0 && x.n == 0,
        Fields::AC => x.b == 0 && x.d == 0 && x.r == 0 && x.s == 0 && x.n == 0,
        Fields::ABC => x.d == 0 && x.r == 0 && x.s == 0 && x.n == 0,
        Fields::ABCD => x.r == 0 && x.s == 0 && x.n == 0,
        Fields::ARS => x.b == 0 && x.c == 0 && x.d == 0 && x.n == 0,
        Fields::ABCRS => x.d == 0 && x.n == 0,
    }
}
