//! Writing a file.
ghost use Rattle.std.specs.Prelude.{◌≡◌, length, MatchResult};
ghost use Rattle.sheet.specs.Answers.{Kept, Saved, Unsaved};

use crate::draft::Draft;
use crate::head::HeadNumbers;
use crate::reading::MAX_NOTE;
use crate::refusal::Refusal;
use crate::row_codec::ROW;
use crate::rows::{put, put_rows};
use crate::trailer::{MARK, TRAILER, Trailer, trailer_bytes};

impl Draft {
    /// Writes the file of this sheet and this note to the start of `out`, and says how long it is.
    pub fn save(&self, note: &[u8], out: &mut [u8]) -> Result<usize, Refusal>
        ensures { MatchResult result (λ n. Saved note.now self.now out.old out.new n) (λ e. Kept out.old out.new (Unsaved note.now self.now (length out.old) e)) }
    {
        let start = note.len();
        if start > MAX_NOTE {
            return Err(Refusal::BadLayout);
        }
        let count = self.rows.len();
        let end = start + ROW * count;
        let len = end + TRAILER;
        if out.len() < len {
            return Err(Refusal::NoRoom);
        }
        let trailer = Trailer {
            offset: start as u32,
            count: count as u16,
            head: HeadNumbers::from(self.head),
            mark: MARK,
        };
        put(out, 0, note);
        put_rows(out, start, self.rows.as_slice());
        put(out, end, &trailer_bytes(&trailer));
        Ok(len)
    }
}
