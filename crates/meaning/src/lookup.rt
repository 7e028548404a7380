//! Slips read and made.
ghost use Rattle.std.specs.Prelude.{◌≡◌, ℕ, ◌<◌, ◌≤◌, true, IfSome};
ghost use Rattle.meaning.specs.Values.{lawful};
ghost use Rattle.meaning.specs.States.{layout_at, slip_of, blank_slip};

use crate::layouts::Layout;
use crate::slips::Slip;
use types::Shape;

/// The layout of the value that row i holds, where one exists: its slip is not blank, and is lawful.
pub fn layout_at(slips: &[Slip], i: usize, width: u16) -> Option<Layout>
    ensures is { result ≡ layout_at width slips.now i }
    ensures lawful { IfSome result (λ f. lawful width f ≡ true) }
{
    let slip = slips.get(i)?;
    let layout = Layout {
        kind: slip.kind?,
        shape: slip.shape,
        r: usize::from(slip.r),
        s: usize::from(slip.s),
    };
    layout.is_lawful(width).then_some(layout)
}

impl Slip {
    /// The slip of a row that holds nothing.
    pub fn blank() -> Slip
        ensures { result ≡ blank_slip }
    {
        Slip {
            kind: None,
            shape: Shape::Scalar,
            r: 0,
            s: 0,
            position: 0,
        }
    }

    /// The slip of a row that holds a value of this layout, at a position of its domain.
    pub fn new(layout: Layout, position: u32) -> Slip
        requires r { layout.r < 65536 }
        requires s { layout.s < 65536 }
        ensures { result ≡ slip_of layout position }
    {
        Slip {
            kind: Some(layout.kind),
            shape: layout.shape,
            r: layout.r as u16,
            s: layout.s as u16,
            position,
        }
    }
}
