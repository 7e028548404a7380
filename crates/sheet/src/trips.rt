//! There and back: a sheet and its file say the same.
ghost use Rattle.std.specs.Prelude.{◌≡◌, length, MatchResult};
ghost use Rattle.sheet.specs.Answers.{GivenBack};
ghost use Rattle.sheet.specs.Files.{Same, Unique};
ghost use Rattle.sheet.specs.Rooms.{space as space_in};
ghost use Rattle.sheet.specs.Trips.{Resaved, Unresaved, Unreloaded};

use crate::draft::Draft;
use crate::reading::load;
use crate::refusal::Returned;
use crate::room::Room;

/// Loads a file and saves it again with its note: the same bytes. Gives the room back in any case.
pub fn resave(file: &[u8], room: Room, out: &mut [u8]) -> Result<(usize, Room), Returned>
    ensures { MatchResult result (λ p. Resaved file.now out.old out.new p.0 × (space_in p.1 ≡ space_in room)) (λ e. Unresaved file.now (space_in room) (length out.old) e.refusal × (space_in e.room ≡ space_in room) × (out.new ≡ out.old)) }
{
    let (draft, note) = load(file, room)?;
    match draft.save(note, out) {
        Ok(n) => Ok((n, draft.into_room())),
        Err(refusal) => Err(Returned {
            refusal,
            room: draft.into_room(),
        }),
    }
}

/// Saves a sheet to `out` and loads it again from there: the same sheet and the same note.
pub fn reload<'a>(
    draft: &Draft,
    note: &[u8],
    out: &'a mut [u8],
    room: Room,
) -> Result<(Draft, &'a [u8]), Returned>
    ensures { MatchResult result (λ p. (p.1.now ≡ note.now) × Same p.0 draft.now) (λ e. Unreloaded note.now draft.now (length out.old) (space_in room) e.refusal × (e.room ≡ room)) }
{
    match draft.save(note, out) {
        Ok(n) => load(&out[0..n], room),
        Err(refusal) => Err(Returned { refusal, room }),
    }
}

/// No two sheets, and no two notes, have one file.
pub fn file_is_unique()
    ensures { Unique }
{}
