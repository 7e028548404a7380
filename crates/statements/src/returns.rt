//! The row that ends a sheet.
ghost use Rattle.std.specs.Prelude.{◌≡◌, ◌&&◌, Some};
ghost use Rattle.types.specs.Types.{agree, same_shape};
ghost use Rattle.types.specs.Typings.{matches, of};
ghost use Rattle.meaning.specs.Values.{known};
ghost use Rattle.statements.specs.Frames.{OfSlips, returning};

use fault::{Cause, Fault};
use meaning::{After, Layout};
use tables::View;
use types::{Size, Typing};

/// Whether a size that may be open allows n.
fn allows(size: Size, n: usize) -> bool
    ensures { result ≡ agree size (Some n) }
{
    size.is_none_or(|m| usize::from(m) == n)
}

/// Whether the value has the sizes that the head of the sheet writes.
fn has_head_sizes(head: Typing, x: Layout) -> bool
    ensures { result ≡ matches head (known x) }
{
    allows(head.r, x.r) && allows(head.s, x.s)
}

/// Whether the value has the kind and the shape that the head of the sheet writes.
fn has_head_type(head: Typing, x: Layout) -> bool
    ensures { result ≡ (of head.kind (known x) && same_shape head.shape x.shape) }
{
    x.is_of(head.kind) && x.is(head.shape)
}

/// A return: the value of row a is the sheet's, where it is of the head's kind, shape and written sizes.
pub fn return_row(view: &View, head: Typing, a: u16) -> Result<After, Fault>
    ensures { OfSlips (returning view.now.place head a) view.now.slips.now result }
{
    let x = view.operand(a)?;
    if !has_head_type(head, x) {
        return Err(view.place.fault(Cause::NoRule, 0));
    }
    if !has_head_sizes(head, x) {
        return Err(view.place.fault(Cause::SizesDiffer, 0));
    }
    Ok(After::Return)
}
