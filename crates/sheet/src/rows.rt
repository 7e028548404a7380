//! The rows of a file, one after another.
ghost use Rattle.std.specs.Prelude.{◌≡◌, ◌+◌, ◌*◌, ◌/◌, ◌%◌, ◌≤◌, length, vec_len, vec_capacity};
ghost use Rattle.std.specs.List.{flat_map};
ghost use Rattle.sheet.specs.Bytes.{placed};
ghost use Rattle.sheet.specs.Rooms.{space};
ghost use Rattle.sheet.specs.Rows.{row_bytes};

use crate::room::Room;
use crate::row::Row;
use crate::row_codec::{ROW, read_row, row_bytes};

/// The rows that `body` holds, in the space of the room.
pub fn read_rows(room: Room, body: &[u8]) -> Vec<Row>
    requires whole { length body.now % 20 ≡ 0 }
    requires room { length body.now / 20 ≤ space room }
    ensures bytes { flat_map row_bytes result.items ≡ body.now }
    ensures len { vec_len result ≡ length body.now / 20 }
    ensures capacity { vec_capacity result ≡ space room }
{
    let Room { mut rows } = room;
    let (parts, _) = body.as_chunks();
    // Pushed one by one, since `extend` may allocate.
    for part in parts {
        rows.push_reserved(read_row(part));
    }
    rows
}

/// A copy of `from`, in the space of the room.
pub fn copy_rows(room: Room, from: &[Row]) -> Vec<Row>
    requires { length from.now ≤ space room }
    ensures items { result.items ≡ from.now }
    ensures len { vec_len result ≡ length from.now }
    ensures capacity { vec_capacity result ≡ space room }
{
    let Room { mut rows } = room;
    for row in from {
        rows.push_reserved(*row);
    }
    rows
}

/// Writes `bytes` into `out`, from `at` on.
#[tactic(auto, using(crate::proofs::Places::put_placed))]
pub fn put(out: &mut [u8], at: usize, bytes: &[u8])
    requires { at + length bytes.now ≤ length out.old }
    ensures { out.new ≡ placed out.old at bytes.now }
{
    out[at..at + bytes.len()].copy_from_slice(bytes);
}

/// Writes the bytes of the rows into `out`, from `start` on.
pub fn put_rows(out: &mut [u8], start: usize, rows: &[Row])
    requires { start + 20 * length rows.now ≤ length out.old }
    ensures { out.new ≡ placed out.old start (flat_map row_bytes rows.now) }
{
    // Of `chunks_exact_mut` no proof learns what the slice ends as, so each row is put at its place.
    for (i, row) in rows.iter().enumerate() {
        put(out, start + ROW * i, &row_bytes(row));
    }
}
