//! The cases that are one word or one byte.
use crate::table::trial;
use source::WithNull;
use std::fmt::Display;
use std::io;

/// A text, and what to call it.
type Case = (&'static str, &'static [u8]);

const INTEGERS: [Case; 9] = [
    ("+5", b"+5"),
    ("-0", b"-0"),
    ("007", b"007"),
    ("2147483647", b"2147483647"),
    ("2147483648", b"2147483648"),
    ("-2147483648", b"-2147483648"),
    ("-2147483649", b"-2147483649"),
    ("4294967303, which is 7 in 32 bits", b"4294967303"),
    (
        "18446744073709551623, which is 7 in 64 bits",
        b"18446744073709551623",
    ),
];

const NO_INTEGERS: [Case; 11] = [
    ("--1", b"--1"),
    ("1-", b"1-"),
    ("+", b"+"),
    ("-, a space and 5", b"- 5"),
    ("1.5", b"1.5"),
    ("0x10", b"0x10"),
    ("T", b"T"),
    ("5 and a NUL", b"5\0"),
    ("5 and a vertical tab", b"5\x0b"),
    ("bytes 255 and 128", b"\xff\x80"),
    ("4 and byte 178", b"4\xb2 1"),
];

const BLANKS: [Case; 7] = [
    ("nothing", b""),
    ("only blanks", b" \t\r\n"),
    ("a word at the very end", b"  12"),
    ("12, a space and 34", b"12 34"),
    ("lines -7 and 8", b"\n-7\n8"),
    ("3 and a carriage return", b"3\r\n"),
    ("4 and a tab", b"4\t"),
];

const BOOLEANS: [Case; 9] = [
    ("T", b"T"),
    ("F", b"F"),
    ("T and F in two words", b" T F"),
    ("TF", b"TF"),
    ("t", b"t"),
    ("1", b"1"),
    ("byte 212, T and 128", b"\xd4"),
    ("nothing", b""),
    ("only blanks", b" \n"),
];

const CHARACTERS: [Case; 8] = [
    ("a", b"a"),
    ("a space and b", b" b"),
    ("a line feed", b"\n"),
    ("a NUL", b"\0"),
    ("byte 127", b"\x7f"),
    ("byte 128", b"\x80"),
    ("byte 255", b"\xff"),
    ("nothing", b""),
];

/// Each case of a table read once.
fn trials<T: WithNull + Display + Drop>(
    rt: &HostRuntime,
    title: &str,
    cases: &[Case],
) -> io::Result<()> {
    println!(rt; "{title}")?;
    for (name, bytes) in cases {
        trial::<T>(rt, name, bytes)?;
    }
    Ok(())
}

/// Each case read once, as its table says.
pub(crate) fn one_by_one(rt: &HostRuntime) -> io::Result<()> {
    trials::<i32>(rt, "integers", &INTEGERS)?;
    trials::<i32>(rt, "words that are no integers", &NO_INTEGERS)?;
    trials::<i32>(rt, "blanks and ends", &BLANKS)?;
    trials::<bool>(rt, "booleans", &BOOLEANS)?;
    trials::<i8>(rt, "characters", &CHARACTERS)
}
