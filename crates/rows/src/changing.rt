//! Rows that change a variable, print, read or return.
ghost use Rattle.std.specs.Prelude.{◌≡◌, ◌<◌, ◌≤◌, length};
ghost use Rattle.meaning.specs.Acts.{step};
ghost use Rattle.rows.specs.Changing.{Reaches, changing};
ghost use Rattle.rows.specs.States.{state_at};
ghost use Rattle.statements.specs.Frames.{InOutput, OfSlips, outputting, returning};
ghost use Rattle.tables.specs.Frames.{Lasts};
ghost use Rattle.tables.specs.Lent.{held, Holds};
ghost use Rattle.tables.specs.Outputs.{Goes};

use crate::variables::{assign, declare, store, store_two};
use fault::Fault;
use instruction::Change;
use meaning::After;
use source::Source;
use statements::returns::return_row;
use statements::streams::{print_row, read_row};
use tables::{Frame, Intake, Output, View};
use types::Typing;

/// A print at the row at work.
fn print_at(frame: &Frame, a: u16, output: &mut Output) -> Result<After, Fault>
    requires before { a < frame.now.place.row }
    requires width { frame.now.place.width ≤ 1024 }
    requires ample { Holds frame.now.place frame.now.tables }
    ensures row { InOutput (outputting frame.now.place a) frame.now.slips.now (held frame.now.tables) output.old.bytes.now output.old.printed result output.new.bytes.now output.new.printed }
    ensures goes { Goes output.old output.new }
{
    let view = View {
        place: frame.place,
        slips: frame.slips,
    };
    print_row(&view, a, &frame.tables.shared(), output)
}

/// A return at the row at work.
fn return_at(frame: &Frame, head: Typing, a: u16) -> Result<After, Fault>
    ensures { OfSlips (returning frame.now.place head a) frame.now.slips.now result }
{
    let view = View {
        place: frame.place,
        slips: frame.slips,
    };
    return_row(&view, head, a)
}

/// A row that changes a variable, prints, reads or returns a value of the head's type.
pub fn change_row<S: Source>(
    frame: &mut Frame,
    head: Typing,
    change: Change,
    source: &mut S,
    intake: &mut Intake,
    output: &mut Output,
) -> Result<After, Fault>
    requires reaches { Reaches frame.old.place.row change }
    requires width { frame.old.place.width ≤ 1024 }
    requires row { frame.old.place.row < length frame.old.slips.now }
    requires ample { Holds frame.old.place frame.old.tables }
    ensures does { step result (state_at frame.new intake.new (S.waiting source.new) output.new) ≡ changing frame.old.place head change (state_at frame.old intake.old (S.waiting source.old) output.old) }
    ensures goes { Goes output.old output.new }
    ensures lasts { Lasts frame.old frame.new }
{
    let place = frame.place;
    // a closed list that rows name by number: the match is what a row says
    match change {
        Change::Declare(written, start) => declare(frame, written, start),
        Change::Assign(v, a) => assign(frame, v, a),
        Change::Store(v, b, c) => store(frame, v, b, c),
        Change::StoreTwo(v, b, c, d) => store_two(frame, v, b, c, d),
        Change::Print(a) => print_at(frame, a, output),
        Change::Read(v) => {
            let slips = &mut *frame.slips;
            let view = View { place, slips };
            read_row(&view, v, &mut frame.tables, source, intake)
        }
        Change::Return(a) => return_at(frame, head, a),
    }
}
