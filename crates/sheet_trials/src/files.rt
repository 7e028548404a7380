//! Files and rows to try, lawful and not.
use sheet::{HeadNumbers, Row};
use std::alloc::{AllocError, Global};

/// A lawful head: integer vectors of any length, at most 4.
pub const HEAD: HeadNumbers = HeadNumbers {
    width: 4,
    kind: 3,
    shape: 2,
    r: 1,
    s: 65535,
    form: 1,
};

/// What a file is made of, which need not fit together.
#[derive(Clone, Copy)]
pub struct Parts {
    pub note: usize,
    pub rows: usize,
    pub offset: u32,
    pub count: u16,
    pub head: HeadNumbers,
    pub mark: u16,
}

/// A note of 2 bytes and 2 rows: 62 bytes, and lawful.
pub const LAWFUL: Parts = Parts {
    note: 2,
    rows: 2,
    offset: 2,
    count: 2,
    head: HEAD,
    mark: 0x5047,
};

/// The bytes of the parts.
pub(crate) fn file_of(heap: Global, parts: Parts) -> Result<Vec<u8>, AllocError> {
    let mut file = vec![in heap; b'n'; parts.note]?;
    for _ in 0..parts.rows {
        file.extend_from_slice(&[7; 20])?;
    }
    file.extend_from_slice(&parts.offset.to_le_bytes())?;
    let head = parts.head;
    let numbers = [
        parts.count,
        head.width,
        head.kind,
        head.shape,
        head.r,
        head.s,
        head.form,
        parts.mark,
    ];
    for n in numbers {
        file.extend_from_slice(&n.to_le_bytes())?;
    }
    Ok(file)
}

/// A row whose fields all differ.
pub(crate) fn row(n: i32) -> Row {
    Row {
        code: 1,
        line: 2,
        a: 3,
        b: 4,
        c: 5,
        d: 6,
        r: 7,
        s: 65535,
        n,
    }
}

/// So many rows.
pub(crate) fn rows(heap: Global, count: usize) -> Result<Vec<Row>, AllocError> {
    vec![in heap; row(-1); count]
}
