//! Values of a kind printed into an output, and read from a source.
ghost use Rattle.std.specs.Prelude.{◌≡◌, ◌+◌, ◌*◌, ◌<◌, ◌≤◌, true, [], ◌∷◌, length};
ghost use Rattle.element.specs.Cells.{put, cells};
ghost use Rattle.meaning.specs.Reading.{reading, unread};
ghost use Rattle.meaning.specs.States.{table_of, with_table};
ghost use Rattle.meaning.specs.Texts.{shape_text};
ghost use Rattle.meaning.specs.Values.{layout_of, fixed};
ghost use Rattle.print.specs.Texts.{Printed};
ghost use Rattle.std.specs.Result.{result_unwrap_or};
ghost use Rattle.source.specs.States.{state_of};
ghost use Rattle.source.specs.Taking.{gone, counted};
ghost use Rattle.tables.specs.Shapes.{shaped_text};
ghost use Rattle.tables.specs.Lent.{held, seen, Kept, Reach};
ghost use Rattle.tables.specs.Outputs.{Goes, Prints};

use crate::intakes::Intake;
use crate::lent::{Shared, Tables};
use crate::outputs::Output;
use element::Element;
use print::{print_matrix, print_scalar, print_vector};
use source::{Readable, Source, StreamState};
use types::{Kind, Shape};

/// Prints the value of this shape from `at` on of one table into the output from `printed` on, and says where its text ends.
fn print_cells<E: Element>(
    shape: Shape,
    r: usize,
    s: usize,
    at: usize,
    output: &mut [u8],
    printed: usize,
    table: &[E],
) -> Option<usize>
    requires fixed { fixed (layout_of E.Element.KIND shape r s) ≡ true }
    requires rows { r ≤ 1024 }
    requires columns { s ≤ 1024 }
    requires place { printed ≤ length output.old }
    requires within { at + r * s ≤ length table.now }
    ensures { Printed (shaped_text shape E.Element.text E.Element.NULL r s (cells table.now at (r * s))) output.old printed result output.new }
{
    match shape {
        Shape::Scalar => print_scalar(table[at], output, printed),
        Shape::Vector => print_vector(table, at, s, output, printed),
        Shape::Matrix => print_matrix(table, at, r, s, output, printed),
        Shape::Interval => Some(printed),
    }
}

/// Reads a value from the source into the cell `to` of one table, the null where none is read, and notes in the intake how the read went.
fn read_cell<E: Element + Readable, S: Source>(
    source: &mut S,
    intake: &mut Intake,
    table: &mut [E],
    to: usize,
)
    requires { to < length table.old }
    ensures written { table.new ≡ put table.old to (result_unwrap_or (E.Readable.read_of (S.waiting source.old)) E.Element.NULL ∷ []) }
    ensures told { intake.new.stream ≡ state_of (E.Readable.read_of (S.waiting source.old)) }
    ensures waits { S.waiting source.new ≡ E.Readable.left_by (S.waiting source.old) }
    ensures took { intake.new.taken ≡ counted intake.old.taken (gone (S.waiting source.old) (S.waiting source.new)) }
{
    let read = E::read(source, &mut intake.taken);
    intake.stream = StreamState::from(&read);
    table[to] = read.unwrap_or(E::NULL);
}

impl Shared<'_> {
    /// Prints a value of this kind and shape, whose r × s cells begin at `at`, behind what is printed, and says whether its text fits. Of an interval it prints nothing.
    pub fn print(
        &self,
        kind: Kind,
        shape: Shape,
        r: usize,
        s: usize,
        at: usize,
        output: &mut Output,
    ) -> bool
        requires fixed { fixed (layout_of kind shape r s) ≡ true }
        requires rows { r ≤ 1024 }
        requires columns { s ≤ 1024 }
        requires within { Reach (at + r * s) (seen self.now) }
        ensures prints { Prints (shape_text shape kind r s (cells (table_of kind (seen self.now)) at (r * s))) output.old result output.new }
        ensures goes { Goes output.old output.new }
    {
        let bytes = &mut *output.bytes;
        let from = output.printed;
        let end = match kind {
            Kind::Boolean => print_cells(shape, r, s, at, bytes, from, self.booleans),
            Kind::Character => print_cells(shape, r, s, at, bytes, from, self.characters),
            Kind::Integer => print_cells(shape, r, s, at, bytes, from, self.integers),
        };
        match end {
            Some(end) => {
                output.printed = end;
                true
            }
            None => false,
        }
    }
}

impl Tables<'_> {
    /// Reads a value of a kind from the source into the cell `to`, and notes in the intake how the read went.
    pub fn read<S: Source>(&mut self, kind: Kind, source: &mut S, intake: &mut Intake, to: usize)
        requires within { Reach (to + 1) (held self.old) }
        ensures written { held self.new ≡ with_table kind (held self.old) (put (table_of kind (held self.old)) to ((reading kind (S.waiting source.old)).value ∷ [])) }
        ensures told { intake.new.stream ≡ (reading kind (S.waiting source.old)).state }
        ensures waits { S.waiting source.new ≡ unread kind (S.waiting source.old) }
        ensures took { intake.new.taken ≡ counted intake.old.taken (gone (S.waiting source.old) (S.waiting source.new)) }
        ensures lent { Kept self.old self.new }
    {
        match kind {
            Kind::Boolean => read_cell(source, intake, self.booleans, to),
            Kind::Character => read_cell(source, intake, self.characters, to),
            Kind::Integer => read_cell(source, intake, self.integers, to),
        }
    }
}
