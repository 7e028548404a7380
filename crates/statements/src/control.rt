//! Rows that decide which row is next.
ghost use Rattle.std.specs.Prelude.{◌<◌, ◌≤◌, ◌*◌, length};
ghost use Rattle.statements.specs.Frames.{InTables, branching, resuming, reopening, turning};
ghost use Rattle.statements.specs.Ready.{TurnDomain, DomainBefore, Ready};
ghost use Rattle.tables.specs.Frames.{Lasts};
ghost use Rattle.tables.specs.Lent.{held, Holds};

use crate::conditions::branch;
use crate::each::{advance, resume_each};
use checker::Line;
use fault::Fault;
use instruction::{Control, Instruction};
use meaning::After;
use tables::{Frame, View};

/// Back to row i, where a control row stands: a loop begins anew, an each takes its next element, and an if is left.
fn resume(frame: &mut Frame, i: u16, control: Control) -> Result<After, Fault>
    requires earlier { i < frame.old.place.row }
    requires domain { TurnDomain i control }
    requires slip { frame.old.place.row < length frame.old.slips.now }
    requires ample { Holds frame.old.place frame.old.tables }
    ensures value { InTables (resuming frame.old.place i control) frame.old.slips.now (held frame.old.tables) result frame.new.slips.now (held frame.new.tables) }
    ensures lasts { Lasts frame.old frame.new }
{
    let place = frame.place;
    match control {
        Control::Loop(_) => Ok(After::Row(i as usize + 1)),
        Control::Each(a, end) => resume_each(frame, i, a, end),
        Control::If(_, _)
        | Control::Else(_)
        | Control::Test(_)
        | Control::Break
        | Control::Continue
        | Control::End(_) => Ok(After::Row(place.row as usize + 1)),
    }
}

/// An end or a continue goes back to row i, which opened its block.
fn reopen(frame: &mut Frame, i: u16, instruction: Instruction) -> Result<After, Fault>
    requires earlier { i < frame.old.place.row }
    requires domain { DomainBefore i instruction }
    requires slip { frame.old.place.row < length frame.old.slips.now }
    requires ample { Holds frame.old.place frame.old.tables }
    ensures value { InTables (reopening frame.old.place i instruction) frame.old.slips.now (held frame.old.tables) result frame.new.slips.now (held frame.new.tables) }
    ensures lasts { Lasts frame.old frame.new }
{
    let place = frame.place;
    match instruction {
        Instruction::Control(control) => resume(frame, i, control),
        Instruction::Expression(_) | Instruction::Change(_) => Ok(After::Row(
            place.row as usize + 1,
        )),
    }
}

/// A condition of the row at work.
fn branch_at(frame: &Frame, a: u16, target: u16) -> Result<After, Fault>
    requires before { a < frame.now.place.row }
    requires ample { frame.now.place.row * frame.now.place.width ≤ length frame.now.tables.booleans.now }
    ensures { InTables (branching frame.now.place a target) frame.now.slips.now (held frame.now.tables) result frame.now.slips.now (held frame.now.tables) }
{
    let view = View {
        place: frame.place,
        slips: frame.slips,
    };
    branch(&view, a, target, frame.tables.booleans)
}

/// A control row. A jump goes on at the row after its target, which check has found.
pub fn control_row(
    frame: &mut Frame,
    lines: &[Line],
    control: Control,
    target: u16,
) -> Result<After, Fault>
    requires ready { Ready lines.now frame.old.place.row target control }
    requires slip { frame.old.place.row < length frame.old.slips.now }
    requires ample { Holds frame.old.place frame.old.tables }
    ensures value { InTables (turning frame.old.place lines.now target control) frame.old.slips.now (held frame.old.tables) result frame.new.slips.now (held frame.new.tables) }
    ensures lasts { Lasts frame.old frame.new }
{
    let place = frame.place;
    // a closed list that rows name by number: the match is what a row says
    match control {
        Control::If(a, _) | Control::Test(a) => branch_at(frame, a, target),
        Control::Else(_) | Control::Break => Ok(After::Row(target as usize + 1)),
        Control::Loop(_) => Ok(After::Row(place.row as usize + 1)),
        Control::Each(a, end) => advance(frame, place.row, a, end, 0),
        Control::Continue | Control::End(_) => {
            let opener = lines[target as usize];
            reopen(frame, target, opener.instruction)
        }
    }
}
