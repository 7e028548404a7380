//! What a checked sheet shows, and what is known to hold of it.
ghost use Rattle.std.specs.Prelude.{◌≡◌, length, MatchResult};
ghost use Rattle.sheet.specs.Answers.{Kept, Saved, Unsaved};
ghost use Rattle.sheet.specs.Rooms.{rows_of};
ghost use Rattle.checker.specs.Structure.{Structured};

use crate::checked::CheckedSheet;
use crate::line::Line;
use sheet::{Head, Row};

impl CheckedSheet {
    /// The lines, one for each row. Of them it is known that blocks nest, that each row reads what it may,
    /// that its typing is the one that follows from those it reads, and where jumps lead.
    pub fn lines(&self) -> &[Line]
        ensures value { result.now ≡ self.now.lines.items }
        ensures structured { Structured self.now.lines.items self.now.draft.head.width self.now.draft.head.result }
    {
        self.lines.as_slice()
    }

    /// The head.
    pub fn head(&self) -> Head
        ensures { result ≡ self.now.draft.head }
    {
        self.draft.head()
    }

    /// The rows, as the draft had them.
    pub fn rows(&self) -> &[Row]
        ensures { result.now ≡ rows_of self.now.draft }
    {
        self.draft.rows()
    }

    /// Writes the file of this sheet and this note to the start of `out`, as the draft would.
    pub fn save(&self, note: &[u8], out: &mut [u8]) -> Result<usize, sheet::Refusal>
        ensures { MatchResult result (λ n. Saved note.now self.now.draft out.old out.new n) (λ e. Kept out.old out.new (Unsaved note.now self.now.draft (length out.old) e)) }
    {
        self.draft.save(note, out)
    }
}
