//! Rows that copy a value: of a variable, backward, and a scalar as a vector.
ghost use Rattle.std.specs.Prelude.{◌<◌};
ghost use Rattle.instruction.specs.declared.instructions.Measure.TheVariants.{Reverse, Single};
ghost use Rattle.meaning.specs.Expressions.{by1, copied, measured};
ghost use Rattle.tables.specs.Frames.{values, Makes};
ghost use Rattle.tables.specs.Lent.{Kept, Holds};

use fault::Fault;
use meaning::Layout;
use tables::{Tables, View};
use types::Shape;

/// The value of a variable.
pub fn variable_row(view: &View, a: u16, tables: &mut Tables) -> Result<Layout, Fault>
    requires before { a < view.now.place.row }
    requires ample { Holds view.now.place tables.old }
    ensures made { Makes view.now.place (by1 view.now.place.width (values view.now tables.old) a (copied)) tables.old result tables.new }
    ensures lent { Kept tables.old tables.new }
{
    let place = view.place;
    let x = view.operand(a)?;
    let form = place.guard(true, true, None, x, true)?;
    let at = place.start_of(a);
    let to = place.start_of(place.row);
    tables.copy(form.kind, at, form.r * form.s, to);
    Ok(form)
}

/// A vector backward.
pub fn reverse_row(view: &View, a: u16, tables: &mut Tables) -> Result<Layout, Fault>
    requires before { a < view.now.place.row }
    requires ample { Holds view.now.place tables.old }
    ensures made { Makes view.now.place (by1 view.now.place.width (values view.now tables.old) a (measured Reverse)) tables.old result tables.new }
    ensures lent { Kept tables.old tables.new }
{
    let place = view.place;
    let x = view.operand(a)?;
    let form = place.guard(x.typing().is(Shape::Vector), true, None, x, true)?;
    let at = place.start_of(a);
    let to = place.start_of(place.row);
    tables.reverse(form.kind, at, form.r * form.s, to);
    Ok(form)
}

/// The vector of one scalar.
pub fn single_row(view: &View, a: u16, tables: &mut Tables) -> Result<Layout, Fault>
    requires before { a < view.now.place.row }
    requires ample { Holds view.now.place tables.old }
    ensures made { Makes view.now.place (by1 view.now.place.width (values view.now tables.old) a (measured Single)) tables.old result tables.new }
    ensures lent { Kept tables.old tables.new }
{
    let place = view.place;
    let x = view.operand(a)?;
    let ruled = x.typing().is(Shape::Scalar);
    let form = place.guard(ruled, true, None, Layout::vector(x.kind, 1), true)?;
    let at = place.start_of(a);
    let to = place.start_of(place.row);
    tables.copy(x.kind, at, x.area(place.width), to);
    Ok(form)
}
