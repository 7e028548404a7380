//! What an instruction is to the rows around it.
ghost use Rattle.std.specs.Prelude.{◌≡◌};
ghost use Rattle.checker.specs.Blocks.{makes, loops, ranges, branches, declares, closer};

use instruction::{Change, Control, Instruction};

/// Whether the row makes a value.
pub fn is_expression(i: Instruction) -> bool
    ensures { result ≡ makes i }
{
    matches!(i, Instruction::Expression(_))
}

pub fn is_loop(i: Instruction) -> bool
    ensures { result ≡ loops i }
{
    matches!(
        i,
        Instruction::Control(Control::Loop(_) | Control::Each(..))
    )
}

pub fn is_each(i: Instruction) -> bool
    ensures { result ≡ ranges i }
{
    matches!(i, Instruction::Control(Control::Each(..)))
}

pub fn is_if(i: Instruction) -> bool
    ensures { result ≡ branches i }
{
    matches!(i, Instruction::Control(Control::If(..)))
}

pub fn is_declare(i: Instruction) -> bool
    ensures { result ≡ declares i }
{
    matches!(i, Instruction::Change(Change::Declare(..)))
}

/// The row that an opener names as the one that closes its block; the opener that an end names.
pub fn closer_of(i: Instruction) -> u16
    ensures { result ≡ closer i }
{
    match i {
        Instruction::Control(
            Control::If(_, b)
            | Control::Else(b)
            | Control::Loop(b)
            | Control::Each(_, b)
            | Control::End(b),
        ) => b,
        _ => 0,
    }
}
