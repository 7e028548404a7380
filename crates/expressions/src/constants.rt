//! Rows without an operand: literals and empty vectors.
ghost use Rattle.std.specs.Prelude.{◌<◌};
ghost use Rattle.meaning.specs.Works.{Made};
ghost use Rattle.meaning.specs.Expressions.{literal, empty};
ghost use Rattle.meaning.specs.Plans.{outcome};
ghost use Rattle.meaning.specs.States.{Tables as Held};
ghost use Rattle.tables.specs.Frames.{Makes};
ghost use Rattle.tables.specs.Lent.{Kept, Holds};

use fault::Fault;
use meaning::{Layout, Place};
use tables::Tables;
use types::Kind;

/// A literal of a kind.
pub fn literal_row(place: Place, kind: Kind, n: i32, tables: &mut Tables) -> Result<Layout, Fault>
    requires wide { 1 < place.width }
    requires ample { Holds place tables.old }
    ensures made { Makes place (outcome place.width (literal kind n)) tables.old result tables.new }
    ensures lent { Kept tables.old tables.new }
{
    let form = place.guard(true, true, None, Layout::scalar(kind), true)?;
    let to = place.start_of(place.row);
    tables.write_literal(kind, n, to);
    Ok(form)
}

/// The empty vector of a kind: it has no cells to write.
pub fn empty_row(place: Place, kind: Kind) -> Result<Layout, Fault>
    ensures { (t : Held) → Made place (outcome place.width (empty kind)) t result t }
{
    place.guard(true, true, None, Layout::vector(kind, 0), true)
}
