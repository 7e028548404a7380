//! What a row answers once its indices are sought.
ghost use Rattle.std.specs.Prelude.{◌≡◌};
ghost use Rattle.expressions.specs.Answers.{answered};

use fault::{Cause, Fault};
use meaning::{Layout, Place};
use picks::Outside;

/// The layout of what was picked or stored into; or the row's fault, at the index that names no element.
pub fn answer(place: Place, form: Layout, sought: Result<(), Outside>) -> Result<Layout, Fault>
    ensures { result ≡ answered place form sought }
{
    sought.map_err(|outside| place.fault(Cause::Index, outside.place))?;
    Ok(form)
}
