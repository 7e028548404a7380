//! Rows that go one way or another by a condition.
ghost use Rattle.std.specs.Prelude.{◌<◌, ◌≤◌, ◌*◌, length};
ghost use Rattle.statements.specs.Frames.{OfBooleans, branching};

use fault::{Cause, Fault};
use meaning::After;
use tables::View;
use types::Kind;

/// An if or a test: on at the next row where the value of row a is true, and at the row after the target where it is false.
pub fn branch(view: &View, a: u16, target: u16, booleans: &[bool]) -> Result<After, Fault>
    requires before { a < view.now.place.row }
    requires ample { view.now.place.row * view.now.place.width ≤ length booleans.now }
    ensures { OfBooleans (branching view.now.place a target) view.now.slips.now booleans.now result }
{
    let place = view.place;
    let x = view.operand(a)?;
    if !x.typing().is_alone(Kind::Boolean) {
        return Err(place.fault(Cause::NoRule, 0));
    }
    let holds = booleans[place.start_of(a)];
    if holds {
        Ok(After::Row(place.row as usize + 1))
    } else {
        Ok(After::Row(target as usize + 1))
    }
}
