//! What a row works on.
ghost use Rattle.std.specs.Prelude.{◌≡◌, ◌<◌, true, IfOk};
ghost use Rattle.meaning.specs.States.{layout_at};
ghost use Rattle.meaning.specs.Values.{lawful};
ghost use Rattle.meaning.specs.Works.{found};

use crate::lent::Tables;
use fault::Fault;
use meaning::{Layout, Place, Slip};

// No ghost field says that the tables have the row's cells: rows that work in one table, or in none, would then ask all three.
/// A row at work: where it stands, what the rows hold, and the lent tables. The ghost fields carry the ranges of its
/// numbers to a reader of a frame.
#[derive(Drop)]
pub struct Frame<'a> {
    pub place: Place,
    pub slips: &'a mut [Slip],
    pub tables: Tables<'a>,
    ghost width_fits: { place.width < 65536 },
    ghost row_fits: { place.row < 65536 },
}

impl Frame<'_> {
    /// The layout of operand i; without a value there the row has no rule.
    pub fn operand(&self, i: u16) -> Result<Layout, Fault>
        ensures is { result ≡ found self.now.place (layout_at self.now.place.width self.now.slips.now i) }
        ensures lawful { IfOk result (λ f. lawful self.now.place.width f ≡ true) }
    {
        let view = View {
            place: self.place,
            slips: self.slips,
        };
        view.operand(i)
    }
}

/// What a row that changes no slip works on beside the tables: where it stands, and what the rows hold. The ghost fields
/// carry the ranges of its numbers, as those of a frame do.
#[derive(Clone, Copy)]
pub struct View<'a> {
    pub place: Place,
    pub slips: &'a [Slip],
    ghost width_fits: { place.width < 65536 },
    ghost row_fits: { place.row < 65536 },
}

impl View<'_> {
    /// The layout of operand i; without a value there the row has no rule.
    pub fn operand(&self, i: u16) -> Result<Layout, Fault>
        ensures is { result ≡ found self.now.place (layout_at self.now.place.width self.now.slips.now i) }
        ensures lawful { IfOk result (λ f. lawful self.now.place.width f ≡ true) }
    {
        self.place.operand(self.slips, i)
    }
}
