//! The last twenty bytes of a file.
ghost use Rattle.std.specs.Prelude.{◌≡◌};
ghost use Rattle.sheet.specs.Trailers.{trailer_bytes, trailer_of};

use crate::bytes::{read_u16, read_u32};
use crate::head::HeadNumbers;

/// What a file ends in.
pub const MARK: u16 = 0x5047;

/// The bytes of a trailer.
pub const TRAILER: usize = 20;

#[derive(Clone, Copy, Debug, PartialEq, Eq)]
pub struct Trailer {
    pub offset: u32,
    pub count: u16,
    pub head: HeadNumbers,
    pub mark: u16,
}

pub fn read_trailer(tail: &[u8; TRAILER]) -> Trailer
    ensures value { result ≡ trailer_of tail.now }
    ensures bytes { trailer_bytes result ≡ tail.now }
{
    let head = HeadNumbers {
        width: read_u16(tail, 6),
        kind: read_u16(tail, 8),
        shape: read_u16(tail, 10),
        r: read_u16(tail, 12),
        s: read_u16(tail, 14),
        form: read_u16(tail, 16),
    };
    Trailer {
        offset: read_u32(tail, 0),
        count: read_u16(tail, 4),
        head,
        mark: read_u16(tail, 18),
    }
}

pub fn trailer_bytes(t: &Trailer) -> [u8; TRAILER]
    ensures { result ≡ trailer_bytes t.now }
{
    let [offset0, offset1, offset2, offset3] = t.offset.to_le_bytes();
    let [count0, count1] = t.count.to_le_bytes();
    let [width0, width1] = t.head.width.to_le_bytes();
    let [kind0, kind1] = t.head.kind.to_le_bytes();
    let [shape0, shape1] = t.head.shape.to_le_bytes();
    let [r0, r1] = t.head.r.to_le_bytes();
    let [s0, s1] = t.head.s.to_le_bytes();
    let [form0, form1] = t.head.form.to_le_bytes();
    let [mark0, mark1] = t.mark.to_le_bytes();
    [
        offset0, offset1, offset2, offset3, count0, count1, width0, width1, kind0, kind1, shape0,
        shape1, r0, r1, s0, s1, form0, form1, mark0, mark1,
    ]
}
