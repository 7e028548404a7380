//! Reading a file.
ghost use Rattle.std.specs.Prelude.{◌≡◌, ℕ, ◌<◌, ◌≤◌, List, length, Decides, MatchResult};
ghost use Rattle.sheet.specs.Answers.{Found, GivenBack, Loaded, Unloaded};
ghost use Rattle.sheet.specs.Files.{encode, last_of, tail_of, Laid, Marked, Same};
ghost use Rattle.sheet.specs.Heads.{numbers_of};
ghost use Rattle.sheet.specs.Rooms.{rows_of, space as space_in};
ghost use Rattle.sheet.specs.Trailers.{trailer_bytes};
ghost use Rattle.sheet.specs.declared.refusal.Refusal.TheVariants.{NotASheet, NoRoom};

use crate::draft::Draft;
use crate::head::Head;
use crate::refusal::{Refusal, Returned};
use crate::room::Room;
use crate::row_codec::ROW;
use crate::rows::read_rows;
use crate::trailer::{MARK, TRAILER, Trailer, read_trailer};

/// The most bytes of a note.
pub const MAX_NOTE: usize = 4096;

/// The most rows of a sheet.
pub const MAX_ROWS: usize = 512;

fn find_trailer(file: &[u8]) -> Result<Trailer, Refusal>
    ensures { MatchResult result (λ t. Marked file.now × (t ≡ last_of file.now) × (trailer_bytes t ≡ tail_of file.now)) (λ e. (e ≡ NotASheet) × (Marked file.now → ⊥)) }
{
    let tail = file.last_chunk().ok_or(Refusal::NotASheet)?;
    let trailer = read_trailer(tail);
    if trailer.mark != MARK {
        return Err(Refusal::NotASheet);
    }
    Ok(trailer)
}

fn is_laid(len: usize, t: &Trailer) -> bool
    ensures { Decides result (Laid len t.now) }
{
    let offset = t.offset as usize;
    let count = t.count as usize;
    offset <= MAX_NOTE && (1..=MAX_ROWS).contains(&count) && offset + ROW * count + TRAILER == len
}

/// The trailer and the head of a file that is lawful.
fn examine(file: &[u8], space: usize) -> Result<(Trailer, Head), Refusal>
    ensures { MatchResult result (λ p. Found file.now space p.0 p.1) (Unloaded file.now space) }
{
    let trailer = find_trailer(file)?;
    if !is_laid(file.len(), &trailer) {
        return Err(Refusal::BadLayout);
    }
    let head = Head::try_from(trailer.head)?;
    if space < trailer.count as usize {
        return Err(Refusal::NoRoom);
    }
    Ok((trailer, head))
}

fn parse<'a>(file: &'a [u8], room: Room) -> Result<(Draft, &'a [u8]), Returned>
    ensures { MatchResult result (λ p. Loaded file.now room p.1.now p.0) (λ e. GivenBack room e (Unloaded file.now (space_in room))) }
{
    match examine(file, room.space()) {
        Ok((trailer, head)) => {
            let start = trailer.offset as usize;
            let end = start + ROW * trailer.count as usize;
            let rows = read_rows(room, &file[start..end]);
            Ok((Draft { head, rows }, &file[..start]))
        }
        Err(refusal) => Err(Returned { refusal, room }),
    }
}

/// The sheet in a file, and its note, which is a part of the file.
/// Whatever was saved loads as the same sheet and note, where the room has space for it.
pub fn load<'a>(file: &'a [u8], room: Room) -> Result<(Draft, &'a [u8]), Returned>
    ensures cases { MatchResult result (λ p. Loaded file.now room p.1.now p.0) (λ e. GivenBack room e (Unloaded file.now (space_in room))) }
    ensures again { (note : List ℕ) (d : Draft) → length note ≤ 4096 → file.now ≡ encode note d → MatchResult result (λ p. (p.1.now ≡ note) × Same p.0 d) (λ e. (e.refusal ≡ NoRoom) × (space_in room < length (rows_of d))) }
{
    parse(file, room)
}
