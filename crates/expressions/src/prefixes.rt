//! Rows with an operator before one value, element by element.
ghost use Rattle.std.specs.Prelude.{◌≡◌, ◌<◌, true, ◌&&◌, IfOk, None};
ghost use Rattle.types.specs.Typings.{of, flat};
ghost use Rattle.instruction.specs.declared.instructions.Prefix.TheVariants.{Minus, Not};
ghost use Rattle.meaning.specs.Expressions.{by1, prefixed};
ghost use Rattle.meaning.specs.Values.{layout_of, known, within};
ghost use Rattle.meaning.specs.Works.{guards};
ghost use Rattle.expressions.specs.Parts.{InIntegers, InBooleans};
ghost use Rattle.tables.specs.Frames.{Covers, values_in};

use arithmetic::faults::at_row;
use elementwise::prefix::{negate, not};
use fault::Fault;
use meaning::{Layout, Place};
use tables::View;
use types::Kind;

/// The layout of what a prefix operator gives of a value, which is of the operator's kind.
fn guard_prefix(place: Place, kind: Kind, x: Layout) -> Result<Layout, Fault>
    ensures is { result ≡ guards place (of kind (known x) && flat (known x)) true None (layout_of kind x.shape x.r x.s) true }
    ensures within { IfOk result (λ f. within place.width f.r f.s ≡ true) }
{
    let t = x.typing();
    let ruled = t.is_of(kind) && t.is_flat();
    place.guard(ruled, true, None, Layout { kind, ..x }, true)
}

/// The minus of integers.
pub fn negate_row(view: &View, a: u16, integers: &mut [i32]) -> Result<Layout, Fault>
    requires before { a < view.now.place.row }
    requires ample { Covers view.now.place integers.old }
    ensures { InIntegers view.now.place (λ t. by1 view.now.place.width (values_in view.now t) a (prefixed Minus)) integers.old result integers.new }
{
    let place = view.place;
    let x = view.operand(a)?;
    let form = guard_prefix(place, Kind::Integer, x)?;
    let at = place.start_of(a);
    let to = place.start_of(place.row);
    let worked = negate(integers, at, to, form.r * form.s);
    at_row(worked, place.row, place.line)?;
    Ok(form)
}

/// The opposite of booleans.
pub fn not_row(view: &View, a: u16, booleans: &mut [bool]) -> Result<Layout, Fault>
    requires before { a < view.now.place.row }
    requires ample { Covers view.now.place booleans.old }
    ensures { InBooleans view.now.place (λ t. by1 view.now.place.width (values_in view.now t) a (prefixed Not)) booleans.old result booleans.new }
{
    let place = view.place;
    let x = view.operand(a)?;
    let form = guard_prefix(place, Kind::Boolean, x)?;
    let at = place.start_of(a);
    let to = place.start_of(place.row);
    not(booleans, at, to, form.r * form.s);
    Ok(form)
}
