//! Rows that declare, assign and store, with what follows them.
ghost use Rattle.std.specs.Prelude.{◌≡◌, ◌<◌, true, length, IfOk};
ghost use Rattle.types.specs.declared.typing.Typing.{Typing};
ghost use Rattle.instruction.specs.declared.instructions.Change.TheVariants.{Assign, Store, StoreTwo};
ghost use Rattle.meaning.specs.Values.{within};
ghost use Rattle.statements.specs.Frames.{InTables, settled};
ghost use Rattle.rows.specs.Changing.{StartsAfter, start_outcome, beginning, changing, begun};
ghost use Rattle.tables.specs.Frames.{values, Fills, Lasts, Stays};
ghost use Rattle.tables.specs.Lent.{held, Kept, Holds};

use changes::assigns::assign_row;
use changes::declares::{declare_nulls, declare_row};
use changes::stores::{store_row, store_two_row};
use fault::Fault;
use meaning::{After, Layout, Place, Slip};
use tables::{Frame, Tables, View};
use types::Typing as Type;

/// The row after a statement is next, unless the statement faulted.
fn proceed(place: Place, res: Result<Layout, Fault>) -> Result<After, Fault>
    ensures { result ≡ settled place res }
{
    let _ = res?;
    Ok(After::Row(place.row as usize + 1))
}

/// Notes in the row's slip what was declared.
fn note(place: Place, res: Result<Layout, Fault>, slips: &mut [Slip])
    requires row { place.row < length slips.old }
    requires within { IfOk res (λ f. within place.width f.r f.s ≡ true) }
    ensures { slips.new ≡ begun place slips.old res }
{
    if let Ok(layout) = res {
        slips[place.row as usize] = Slip::new(layout, 0);
    }
}

/// Writes what a declaration gives to its variable.
fn begin(view: &View, w: Type, start: Option<u16>, tables: &mut Tables) -> Result<Layout, Fault>
    requires before { StartsAfter view.now.place.row start }
    requires ample { Holds view.now.place tables.old }
    ensures filled { Fills view.now.place view.now.place.row (start_outcome view.now.place.width (values view.now tables.old) w start) tables.old result tables.new }
    ensures within { IfOk result (λ f. within view.now.place.width f.r f.s ≡ true) }
    ensures lent { Kept tables.old tables.new }
{
    match start {
        None => declare_nulls(view.place, w, tables),
        Some(a) => declare_row(view, w, a, tables),
    }
}

/// A declaration: the variable takes nulls or a value.
pub fn declare(frame: &mut Frame, w: Type, start: Option<u16>) -> Result<After, Fault>
    requires before { StartsAfter frame.old.place.row start }
    requires row { frame.old.place.row < length frame.old.slips.now }
    requires ample { Holds frame.old.place frame.old.tables }
    ensures value { InTables (beginning frame.old.place w start) frame.old.slips.now (held frame.old.tables) result frame.new.slips.now (held frame.new.tables) }
    ensures lasts { Lasts frame.old frame.new }
{
    let place = frame.place;
    let slips = &mut *frame.slips;
    let view = View { place, slips };
    let declared = begin(&view, w, start, &mut frame.tables);
    note(place, declared, frame.slips);
    proceed(place, declared)
}

/// An assignment of row a to variable v.
pub fn assign(frame: &mut Frame, v: u16, a: u16) -> Result<After, Fault>
    requires before { a < frame.old.place.row }
    requires under { v < a }
    requires ample { Holds frame.old.place frame.old.tables }
    ensures value { (head : Typing) → InTables (changing frame.old.place head (Assign v a)) frame.old.slips.now (held frame.old.tables) result frame.new.slips.now (held frame.new.tables) }
    ensures stays { Stays frame.old frame.new }
{
    let place = frame.place;
    let slips = &mut *frame.slips;
    let view = View { place, slips };
    let assigned = assign_row(&view, v, a, &mut frame.tables);
    proceed(place, assigned)
}

/// A store of row c in vector v at the index of row b.
pub fn store(frame: &mut Frame, v: u16, b: u16, c: u16) -> Result<After, Fault>
    requires index { b < frame.old.place.row }
    requires value { c < frame.old.place.row }
    requires under_index { v < b }
    requires under_value { v < c }
    requires ample { Holds frame.old.place frame.old.tables }
    ensures value { (head : Typing) → InTables (changing frame.old.place head (Store v b c)) frame.old.slips.now (held frame.old.tables) result frame.new.slips.now (held frame.new.tables) }
    ensures stays { Stays frame.old frame.new }
{
    let place = frame.place;
    let slips = &mut *frame.slips;
    let view = View { place, slips };
    let stored = store_row(&view, v, b, c, &mut frame.tables);
    proceed(place, stored)
}

/// A store of row d in matrix v at the row of row b and the column of row c.
pub fn store_two(frame: &mut Frame, v: u16, b: u16, c: u16, d: u16) -> Result<After, Fault>
    requires row { b < frame.old.place.row }
    requires column { c < frame.old.place.row }
    requires value { d < frame.old.place.row }
    requires before { v < frame.old.place.row }
    requires ample { Holds frame.old.place frame.old.tables }
    ensures value { (head : Typing) → InTables (changing frame.old.place head (StoreTwo v b c d)) frame.old.slips.now (held frame.old.tables) result frame.new.slips.now (held frame.new.tables) }
    ensures stays { Stays frame.old frame.new }
{
    let place = frame.place;
    let slips = &mut *frame.slips;
    let view = View { place, slips };
    let stored = store_two_row(&view, v, b, c, d, &mut frame.tables);
    proceed(place, stored)
}
