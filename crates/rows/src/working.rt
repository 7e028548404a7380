//! One row of a checked sheet at work.
ghost use Rattle.std.specs.Prelude.{◌≡◌, ◌<◌, ◌≤◌, length};
ghost use Rattle.checker.specs.Blocks.{at};
ghost use Rattle.checker.specs.Structure.{Structured};
ghost use Rattle.meaning.specs.Acts.{Acts};
ghost use Rattle.laws.specs.Reads.{make_reads, AllUnder};
ghost use Rattle.rows.specs.States.{state_at};
ghost use Rattle.rows.specs.Working.{Expresses};
ghost use Rattle.tables.specs.Frames.{Lasts};
ghost use Rattle.tables.specs.Lent.{held, Holds};
ghost use Rattle.tables.specs.Outputs.{Goes};

use crate::changing::change_row;
use checker::Line;
use evaluation::evaluate;
use fault::Fault;
use instruction::{Expression, Instruction};
use meaning::After;
use source::{Source, StreamState};
use statements::control::control_row;
use statements::settle::settle;
use tables::{Frame, Intake, Output, View};
use types::Typing;

/// What check passed at a row.
fn line_of(lines: &[Line], row: u16) -> Line
    requires { row < length lines.now }
    ensures { result ≡ at lines.now row }
{
    lines[row as usize]
}

/// An expression row: its value in its cells and its layout in its slip, or its fault and a blank slip.
fn express(frame: &mut Frame, expression: Expression, stream: StreamState) -> Result<After, Fault>
    requires wide { 1 < frame.old.place.width }
    requires reads { AllUnder frame.old.place.row (make_reads expression) }
    requires row { frame.old.place.row < length frame.old.slips.now }
    requires ample { Holds frame.old.place frame.old.tables }
    ensures value { Expresses frame.old.place expression stream frame.old.slips.now (held frame.old.tables) result frame.new.slips.now (held frame.new.tables) }
    ensures lasts { Lasts frame.old frame.new }
{
    let place = frame.place;
    let slips = &mut *frame.slips;
    let view = View { place, slips };
    let made = evaluate(&view, expression, stream, &mut frame.tables);
    settle(place, made, frame.slips)
}

/// Works one row of the sheet that has these lines and this type of its result: where the sheet goes on, or the row's fault.
pub fn work<S: Source>(
    frame: &mut Frame,
    lines: &[Line],
    head: Typing,
    source: &mut S,
    intake: &mut Intake,
    output: &mut Output,
) -> Result<After, Fault>
    requires sheet { Structured lines.now frame.old.place.width head }
    requires inside { frame.old.place.row < length lines.now }
    requires wide { 1 < frame.old.place.width }
    requires width { frame.old.place.width ≤ 1024 }
    requires row { frame.old.place.row < length frame.old.slips.now }
    requires ample { Holds frame.old.place frame.old.tables }
    ensures acts { Acts frame.old.place.width frame.old.place.row frame.old.place.line (state_at frame.old intake.old (S.waiting source.old) output.old) head lines.now (at lines.now frame.old.place.row).target (at lines.now frame.old.place.row).instruction result (state_at frame.new intake.new (S.waiting source.new) output.new) }
    ensures goes { Goes output.old output.new }
    ensures lasts { Lasts frame.old frame.new }
{
    let place = frame.place;
    let line = line_of(lines, place.row);
    // a closed list too: the match is what a row is
    match line.instruction {
        Instruction::Expression(expression) => express(frame, expression, intake.stream),
        Instruction::Change(change) => change_row(frame, head, change, source, intake, output),
        Instruction::Control(control) => control_row(frame, lines, control, line.target),
    }
}
