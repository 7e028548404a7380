//! Each rows: one element of the domain at a time.
ghost use Rattle.std.specs.Prelude.{◌≡◌, ◌+◌, ◌<◌, ◌≤◌, length};
ghost use Rattle.statements.specs.Domains.{ranged, ElementBelow, with_element};
ghost use Rattle.statements.specs.Frames.{InTables, advancing, repeating};
ghost use Rattle.tables.specs.Frames.{Lasts};
ghost use Rattle.tables.specs.Lent.{held, Kept, Reach, Holds};

use expressions::lists::{is_orderly, list_in};
use fault::{Cause, Fault};
use meaning::{After, Layout, Slip};
use picks::Index;
use picks::indices::nth_between;
use tables::{Frame, Tables};
use types::{Kind, Shape};

/// Whether an each can range over a value of this layout.
fn is_ranged(x: Layout) -> bool
    ensures { result ≡ ranged x }
{
    x.is(Shape::Vector) || x.is(Shape::Interval)
}

/// Writes element n of a domain into the cell `to` of the table of its kind.
fn put_element(kind: Kind, list: Index, n: usize, to: usize, tables: &mut Tables)
    requires below { ElementBelow list n to }
    requires within { Reach (to + 1) (held tables.old) }
    ensures value { held tables.new ≡ with_element kind list n to (held tables.old) }
    ensures lent { Kept tables.old tables.new }
{
    match list {
        Index::Cells { at, .. } => tables.copy(kind, at + n, 1, to),
        Index::Interval { low, high } => tables.integers[to] = nth_between(low, high, n),
    }
}

/// The each row i takes element n of its domain, the value of row a, and its block begins; past the last element
/// the row holds nothing, and the sheet goes on behind the block, which ends at row `end`.
pub fn advance(frame: &mut Frame, i: u16, a: u16, end: u16, n: usize) -> Result<After, Fault>
    requires domain { a < i }
    requires upto { i ≤ frame.old.place.row }
    requires slip { i < length frame.old.slips.now }
    requires ample { Holds frame.old.place frame.old.tables }
    ensures value { InTables (advancing frame.old.place i a end n) frame.old.slips.now (held frame.old.tables) result frame.new.slips.now (held frame.new.tables) }
    ensures lasts { Lasts frame.old frame.new }
{
    let place = frame.place;
    let x = frame.operand(a)?;
    if !is_ranged(x) {
        return Err(place.fault(Cause::NoRule, 0));
    }
    let list = list_in(&frame.tables, place, a, x);
    if !is_orderly(list) {
        return Err(place.fault(Cause::Disordered, 0));
    }
    if n >= list.count() {
        frame.slips[i as usize] = Slip::blank();
        return Ok(After::Row(end as usize + 1));
    }
    let to = place.start_of(i);
    put_element(x.kind, list, n, to, &mut frame.tables);
    frame.slips[i as usize] = Slip::new(Layout::scalar(x.kind), n as u32);
    Ok(After::Row(i as usize + 1))
}

/// The each row i takes the element after the one that it has; a row that has none has no next one.
pub fn resume_each(frame: &mut Frame, i: u16, a: u16, end: u16) -> Result<After, Fault>
    requires domain { a < i }
    requires upto { i ≤ frame.old.place.row }
    requires slip { i < length frame.old.slips.now }
    requires ample { Holds frame.old.place frame.old.tables }
    ensures value { InTables (repeating frame.old.place i a end) frame.old.slips.now (held frame.old.tables) result frame.new.slips.now (held frame.new.tables) }
    ensures lasts { Lasts frame.old frame.new }
{
    let place = frame.place;
    let slip = frame.slips[i as usize];
    match slip.kind {
        None => Err(place.fault(Cause::NoRule, 0)),
        Some(_) => {
            // Wider than a position, so that the one after the greatest does not wrap: no domain has that element.
            let n = slip.position as usize + 1;
            advance(frame, i, a, end, n)
        }
    }
}
