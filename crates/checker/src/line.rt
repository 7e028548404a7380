//! A row that check has passed.
use instruction::Instruction;
use types::Typing;

/// What a checked row says, and what is known of it.
#[derive(Clone, Copy, Debug, PartialEq, Eq)]
pub struct Line {
    pub instruction: Instruction,
    /// The type of the row's value, or of the variable that it makes, as far as it is known.
    pub typing: Option<Typing>,
    /// The opener of the innermost block that the row stands in.
    pub block: Option<u16>,
    /// Where the row goes on, if it jumps: at the row after this one.
    pub target: u16,
}
