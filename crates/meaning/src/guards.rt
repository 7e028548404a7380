//! The tests of a row, and the fault of the first that fails.
ghost use Rattle.std.specs.Prelude.{◌≡◌, ℕ, ◌*◌, true, IfOk};
ghost use Rattle.meaning.specs.Plans.{fits};
ghost use Rattle.meaning.specs.States.{layout_at};
ghost use Rattle.meaning.specs.Values.{lawful, within};
ghost use Rattle.meaning.specs.Works.{fault_at, found, guards};

use crate::layouts::Layout;
use crate::lookup::layout_at;
use crate::places::Place;
use crate::slips::Slip;
use fault::{Cause, Fault};
use rules::need;

impl Place {
    /// The first cell of row i.
    pub fn start_of(self, i: u16) -> usize
        ensures { result ≡ i * self.width }
    {
        usize::from(i) * usize::from(self.width)
    }

    /// The fault of this row, at an element.
    pub fn fault(self, cause: Cause, element: usize) -> Fault
        ensures { result ≡ fault_at self cause element }
    {
        Fault {
            row: self.row,
            line: self.line,
            element,
            cause,
        }
    }

    /// The layout of operand i; without a value there the row has no rule.
    pub fn operand(self, slips: &[Slip], i: u16) -> Result<Layout, Fault>
        ensures is { result ≡ found self (layout_at self.width slips.now i) }
        ensures lawful { IfOk result (λ f. lawful self.width f ≡ true) }
    {
        layout_at(slips, usize::from(i), self.width).ok_or(self.fault(Cause::NoRule, 0))
    }

    fn is_fitting(self, counted: Option<usize>, layout: Layout) -> bool
        ensures { result ≡ fits self.width counted layout }
    {
        counted.is_none_or(|n| n <= usize::from(self.width)) && layout.is_within(self.width)
    }

    /// The layout, where every test passes: kinds and shapes have a rule, bounds are in order, what is counted and the layout
    /// are within the width, and sizes agree.
    // five arguments: a struct of them would be built at each call and taken apart here alone
    pub fn guard(
        self,
        ruled: bool,
        ordered: bool,
        counted: Option<usize>,
        layout: Layout,
        agree: bool,
    ) -> Result<Layout, Fault>
        ensures is { result ≡ guards self ruled ordered counted layout agree }
        ensures within { IfOk result (λ f. within self.width f.r f.s ≡ true) }
    {
        need(ruled, self.fault(Cause::NoRule, 0))?;
        need(ordered, self.fault(Cause::Disordered, 0))?;
        need(
            self.is_fitting(counted, layout),
            self.fault(Cause::Beyond, 0),
        )?;
        need(agree, self.fault(Cause::SizesDiffer, 0))?;
        Ok(layout)
    }
}
