//! Rows that print and read.
ghost use Rattle.std.specs.Prelude.{◌<◌, ◌≤◌};
ghost use Rattle.statements.specs.Frames.{InOutput, FromSource, outputting, inputting};
ghost use Rattle.tables.specs.Lent.{held, seen, Kept, Holds, Shows};
ghost use Rattle.tables.specs.Outputs.{Goes};

use fault::{Cause, Fault};
use meaning::After;
use source::Source;
use tables::{Intake, Output, Shared, Tables, View};
use types::Shape;

/// Prints the value of row a behind what is printed; where the output has no room for all of it, nothing is, and the row waits.
pub fn print_row(view: &View, a: u16, tables: &Shared, output: &mut Output) -> Result<After, Fault>
    requires before { a < view.now.place.row }
    requires width { view.now.place.width ≤ 1024 }
    requires ample { Shows view.now.place tables.now }
    ensures row { InOutput (outputting view.now.place a) view.now.slips.now (seen tables.now) output.old.bytes.now output.old.printed result output.new.bytes.now output.new.printed }
    ensures goes { Goes output.old output.new }
{
    let place = view.place;
    let x = view.operand(a)?;
    if x.is(Shape::Interval) {
        return Err(place.fault(Cause::NoRule, 0));
    }
    let at = place.start_of(a);
    if tables.print(x.kind, x.shape, x.r, x.s, at, output) {
        Ok(After::Row(place.row as usize + 1))
    } else {
        Ok(After::Wait)
    }
}

/// Reads a value of the kind of row i, a scalar variable, into it, and notes in the intake how the read went.
pub fn read_row<S: Source>(
    view: &View,
    i: u16,
    tables: &mut Tables,
    source: &mut S,
    intake: &mut Intake,
) -> Result<After, Fault>
    requires before { i < view.now.place.row }
    requires ample { Holds view.now.place tables.old }
    ensures value { FromSource (inputting view.now.place i) intake.old.taken intake.old.stream view.now.slips.now (held tables.old) (S.waiting source.old) result intake.new.taken intake.new.stream (held tables.new) (S.waiting source.new) }
    ensures lent { Kept tables.old tables.new }
{
    let place = view.place;
    let x = view.operand(i)?;
    if !x.is(Shape::Scalar) {
        return Err(place.fault(Cause::NoRule, 0));
    }
    let to = place.start_of(i);
    tables.read(x.kind, source, intake, to);
    Ok(After::Row(place.row as usize + 1))
}
