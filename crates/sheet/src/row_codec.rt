//! The twenty bytes of a row.
ghost use Rattle.std.specs.Prelude.{◌≡◌};
ghost use Rattle.sheet.specs.Rows.{row_bytes};

use crate::bytes::{read_i32, read_u16};
use crate::row::Row;

/// The bytes of a row.
pub const ROW: usize = 20;

pub fn read_row(part: &[u8; ROW]) -> Row
    ensures { row_bytes result ≡ part.now }
{
    Row {
        code: read_u16(part, 0),
        line: read_u16(part, 2),
        a: read_u16(part, 4),
        b: read_u16(part, 6),
        c: read_u16(part, 8),
        d: read_u16(part, 10),
        r: read_u16(part, 12),
        s: read_u16(part, 14),
        n: read_i32(part, 16),
    }
}

pub fn row_bytes(row: &Row) -> [u8; ROW]
    ensures { result ≡ row_bytes row.now }
{
    let [code0, code1] = row.code.to_le_bytes();
    let [line0, line1] = row.line.to_le_bytes();
    let [a0, a1] = row.a.to_le_bytes();
    let [b0, b1] = row.b.to_le_bytes();
    let [c0, c1] = row.c.to_le_bytes();
    let [d0, d1] = row.d.to_le_bytes();
    let [r0, r1] = row.r.to_le_bytes();
    let [s0, s1] = row.s.to_le_bytes();
    let [n0, n1, n2, n3] = row.n.to_le_bytes();
    [
        code0, code1, line0, line1, a0, a1, b0, b1, c0, c1, d0, d1, r0, r1, s0, s1, n0, n1, n2, n3,
    ]
}
