//! Making a sheet.
ghost use Rattle.std.specs.Prelude.{◌≡◌, ◌≤◌, length, MatchResult};
ghost use Rattle.sheet.specs.Answers.{Counted, GivenBack, Made, Unmade};
ghost use Rattle.sheet.specs.Heads.{numbers_of};
ghost use Rattle.sheet.specs.Rooms.{space as space_in};

use crate::draft::Draft;
use crate::head::{Head, HeadNumbers};
use crate::reading::MAX_ROWS;
use crate::refusal::{Refusal, Returned};
use crate::room::Room;
use crate::row::Row;
use crate::rows::copy_rows;

/// The head with these numbers, where it and the rows make a sheet in a room for `space` rows.
fn approve(numbers: HeadNumbers, rows: &[Row], space: usize) -> Result<Head, Refusal>
    ensures { MatchResult result (λ h. (numbers_of h ≡ numbers) × Counted rows.now × (length rows.now ≤ space)) (Unmade numbers rows.now space) }
{
    if rows.is_empty() || rows.len() > MAX_ROWS {
        return Err(Refusal::BadLayout);
    }
    let head = Head::try_from(numbers)?;
    if space < rows.len() {
        return Err(Refusal::NoRoom);
    }
    Ok(head)
}

/// The sheet of a head, given by its numbers, and rows.
pub fn make(numbers: HeadNumbers, rows: &[Row], room: Room) -> Result<Draft, Returned>
    ensures { MatchResult result (λ d. Made numbers rows.now room d) (λ e. GivenBack room e (Unmade numbers rows.now (space_in room))) }
{
    match approve(numbers, rows, room.space()) {
        Ok(head) => {
            let rows = copy_rows(room, rows);
            Ok(Draft { head, rows })
        }
        Err(refusal) => Err(Returned { refusal, room }),
    }
}
