//! The head of a sheet: how wide it is and what it returns.
ghost use Rattle.std.specs.Prelude.{◌≡◌, ◌≤◌, true};
ghost use Rattle.types.specs.Typings.{lawful as lawful_type};

use types::{Form, Typing};

/// A lawful head. No value of the sheet has more elements than `width`, which is 2 to 1,024.
#[derive(Clone, Copy, Debug, PartialEq, Eq, Hash)]
pub struct Head {
    pub width: u16,
    pub result: Typing,
    pub form: Form,
    ghost low: { 2 ≤ width },
    ghost high: { width ≤ 1024 },
    ghost lawful: { lawful_type width result ≡ true },
}

/// The numbers that stand for a head in a file, lawful or not.
#[derive(Clone, Copy, Debug, PartialEq, Eq, Hash)]
pub struct HeadNumbers {
    pub width: u16,
    pub kind: u16,
    pub shape: u16,
    pub r: u16,
    pub s: u16,
    pub form: u16,
}

/// What numbers that are those of no lawful head are refused with.
#[derive(Clone, Copy, Debug, PartialEq, Eq, Hash)]
pub struct UnlawfulHead;
