//! Checking the rows of a sheet.
ghost use Rattle.std.specs.Prelude.{◌≡◌, ℕ, ◌+◌, ◌<◌, ◌≤◌, List, length, if◌then◌else◌, vec_len, vec_capacity, MatchResult};
ghost use Rattle.sheet.specs.Rooms.{rows_of};
ghost use Rattle.checker.specs.Blocks.{makes};
ghost use Rattle.checker.specs.Judge.{Accepted, Faulty};
ghost use Rattle.checker.specs.Sheets.{space_in, Accepts, Refuses};

use crate::checked::CheckedSheet;
use crate::line::Line;
use crate::opened::Blocks;
use crate::position::Position;
use crate::refused::Refused;
use crate::room::Room;
use crate::says::is_expression;
use instruction::Instruction;
use rules::Refusal;
use sheet::{Draft, Head, Row};

/// From which row on only expression rows stand, after row p.
fn next_start(i: Instruction, start: usize, p: usize) -> usize
    requires { p < 512 }
    ensures { result ≡ (if makes i then start else p + 1) }
{
    if is_expression(i) { start } else { p + 1 }
}

/// The first row that breaks a rule, and the rule.
#[derive(Clone, Copy, Debug, PartialEq, Eq)]
struct Broken {
    refusal: Refusal,
    row: usize,
}

/// The lines of the rows, or the first row that breaks a rule, and the lines of the rows before it.
fn check_rows(lines: &mut Vec<Line>, head: Head, rows: &[Row]) -> Result<(), Broken>
    requires few { length rows.now ≤ 512 }
    requires bare { vec_len lines.old ≡ 0 }
    requires space { length rows.now ≤ vec_capacity lines.old }
    ensures verdict { MatchResult result (λ _. Accepted head.width head.result rows.now lines.new.items) (λ e. Faulty head.width head.result rows.now lines.new.items e.refusal e.row) }
    ensures capacity { vec_capacity lines.new ≡ vec_capacity lines.old }
{
    let mut blocks = Blocks::new();
    let mut start = 0;
    for (p, row) in rows.iter().enumerate() {
        let position = Position {
            head,
            lines: lines.as_slice(),
            blocks: &blocks,
            row: p,
            start,
            is_last: p + 1 == rows.len(),
        };
        // The proof did not close with `map_err` and `?` here.
        let line = match position.judge(*row) {
            Err(refusal) => return Err(Broken { refusal, row: p }),
            Ok(line) => line,
        };
        blocks.advance(line.instruction, p as u16);
        start = next_start(line.instruction, start, p);
        lines.push_reserved(line);
    }
    Ok(())
}

/// The checked sheet of a draft and the lines of its rows.
fn seal(draft: Draft, lines: Vec<Line>) -> CheckedSheet
    requires { Accepted draft.head.width draft.head.result (rows_of draft) lines.items }
    ensures draft { result.draft ≡ draft }
    ensures lines { result.lines ≡ lines }
{
    CheckedSheet { draft, lines }
}

/// The sheet, checked, with its lines in the room that is brought; or the first row that breaks a rule, and
/// the smallest number of those that it breaks.
pub fn check(draft: Draft, room: Room) -> Result<CheckedSheet, Refused>
    ensures verdict { MatchResult result (λ c. Accepts draft room c) (λ e. Refuses draft room e) }
    ensures exact { (lines : List Line) → length (rows_of draft) ≤ space_in room → Accepted draft.head.width draft.head.result (rows_of draft) lines → MatchResult result (λ c. c.lines.items ≡ lines) (λ _. ⊥) }
{
    let head = draft.head();
    if room.lines.capacity() < draft.rows().len() {
        return Err(Refused {
            draft,
            room,
            refusal: Refusal::NoRoom,
            row: 0,
        });
    }
    let Room { mut lines } = room;
    lines.clear();
    match check_rows(&mut lines, head, draft.rows()) {
        Ok(()) => Ok(seal(draft, lines)),
        Err(broken) => Err(Refused {
            draft,
            room: Room { lines },
            refusal: broken.refusal,
            row: broken.row,
        }),
    }
}
