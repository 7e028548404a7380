//! The end of an expression row.
ghost use Rattle.std.specs.Prelude.{◌≡◌, ◌<◌, true, length, IfOk, slice_set};
ghost use Rattle.meaning.specs.Values.{within};
ghost use Rattle.statements.specs.Frames.{settled, settled_slip};

use fault::Fault;
use meaning::{After, Layout, Place, Slip};

/// Notes in the row's slip what its cells hold: a value of this layout, or nothing after a fault. The row after it is next.
pub fn settle(place: Place, res: Result<Layout, Fault>, slips: &mut [Slip]) -> Result<After, Fault>
    requires row { place.row < length slips.old }
    requires within { IfOk res (λ f. within place.width f.r f.s ≡ true) }
    ensures answer { result ≡ settled place res }
    ensures slips { slips.new ≡ slice_set slips.old place.row (settled_slip res) }
{
    let row = place.row as usize;
    match res {
        Ok(layout) => {
            slips[row] = Slip::new(layout, 0);
            Ok(After::Row(row + 1))
        }
        Err(fault) => {
            slips[row] = Slip::blank();
            Err(fault)
        }
    }
}
