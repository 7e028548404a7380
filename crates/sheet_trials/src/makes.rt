//! Making sheets of heads and rows.
use crate::files::{HEAD, rows};
use sheet::{HeadNumbers, MAX_ROWS, Room, make};

fn number(rt: &HostRuntime, head: HeadNumbers, count: usize, space: usize) -> anyhow::Result<u16> {
    let rows = rows(rt.alloc(), count)?;
    let room = Room::new(rt.alloc(), space)?;
    match make(head, rows.as_slice(), room) {
        Ok(_) => Ok(0),
        Err(refused) => Ok(u16::from(refused.refusal)),
    }
}

fn try_rows(rt: &HostRuntime) -> anyhow::Result<()> {
    for count in [0, 1, 2, 511, 512, 513, 600] {
        let n = number(rt, HEAD, count, MAX_ROWS)?;
        println!(rt; "make of {count} rows: {n}")?;
    }
    Ok(())
}

fn try_widths(rt: &HostRuntime) -> anyhow::Result<()> {
    for width in [0, 1, 2, 1024, 1025, 65535] {
        let n = number(rt, HeadNumbers { width, ..HEAD }, 1, MAX_ROWS)?;
        println!(rt; "make of width {width}: {n}")?;
    }
    for form in [0, 1, 2] {
        let n = number(rt, HeadNumbers { form, ..HEAD }, 1, MAX_ROWS)?;
        println!(rt; "make of form {form}: {n}")?;
    }
    Ok(())
}

/// Kind, shape, r and s of a result, at width 4.
const TYPES: [(u16, u16, u16, u16); 33] = [
    (0, 1, 1, 1),
    (1, 1, 1, 1),
    (2, 1, 1, 1),
    (3, 1, 1, 1),
    (4, 1, 1, 1),
    (3, 0, 1, 1),
    (3, 5, 1, 1),
    (3, 1, 1, 2),
    (3, 1, 2, 1),
    (3, 1, 1, 65535),
    (1, 2, 1, 0),
    (2, 2, 1, 4),
    (3, 2, 1, 5),
    (3, 2, 1, 65535),
    (3, 2, 0, 1),
    (3, 2, 2, 1),
    (3, 2, 65535, 1),
    (3, 3, 2, 2),
    (3, 3, 2, 3),
    (3, 3, 5, 0),
    (3, 3, 0, 5),
    (3, 3, 4, 0),
    (3, 3, 65535, 65535),
    (3, 3, 65535, 5),
    (3, 3, 5, 65535),
    (3, 3, 4, 65535),
    (3, 3, 65535, 4),
    (3, 4, 1, 2),
    (1, 4, 1, 2),
    (2, 4, 1, 2),
    (3, 4, 1, 1),
    (3, 4, 2, 2),
    (3, 4, 1, 65535),
];

fn try_types(rt: &HostRuntime) -> anyhow::Result<()> {
    for (kind, shape, r, s) in TYPES {
        let head = HeadNumbers {
            kind,
            shape,
            r,
            s,
            ..HEAD
        };
        let n = number(rt, head, 1, MAX_ROWS)?;
        println!(rt; "make of kind {kind}, shape {shape}, r {r}, s {s}: {n}")?;
    }
    Ok(())
}

pub(crate) fn try_makes(rt: &HostRuntime) -> anyhow::Result<()> {
    try_rows(rt)?;
    try_widths(rt)?;
    try_types(rt)?;
    let n = number(rt, HEAD, 0, 0)?;
    println!(rt; "make of no rows with no room: {n}")?;
    let n = number(rt, HeadNumbers { width: 1, ..HEAD }, 512, 0)?;
    println!(rt; "make of width 1 with no room: {n}")?;
    let n = number(rt, HEAD, 512, 1)?;
    println!(rt; "make of 512 rows in a room for few: {n}")?;
    Ok(())
}
