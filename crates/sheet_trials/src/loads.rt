//! Loading files.
use crate::files::{HEAD, LAWFUL, Parts, file_of};
use sheet::{HeadNumbers, MAX_ROWS, Room, load};

fn show(rt: &HostRuntime, name: &str, file: &[u8], space: usize) -> anyhow::Result<()> {
    let room = Room::new(rt.alloc(), space)?;
    match load(file, room) {
        Ok((draft, note)) => {
            let rows = draft.rows().len();
            let bytes = note.len();
            println!(rt; "load {name}: {rows} rows, note of {bytes}")?;
        }
        Err(refused) => {
            let number = u16::from(refused.refusal);
            println!(rt; "load {name}: refused {number}")?;
        }
    }
    Ok(())
}

fn show_parts(rt: &HostRuntime, name: &str, parts: Parts) -> anyhow::Result<()> {
    let file = file_of(rt.alloc(), parts)?;
    show(rt, name, file.as_slice(), MAX_ROWS)
}

fn try_lengths(rt: &HostRuntime) -> anyhow::Result<()> {
    show(rt, "no bytes", &[], MAX_ROWS)?;
    show(rt, "19 bytes", &[0; 19], MAX_ROWS)?;
    show(rt, "20 bytes, all 0", &[0; 20], MAX_ROWS)?;
    show_parts(rt, "a lawful file", LAWFUL)?;
    show_parts(rt, "a byte more", Parts { note: 3, ..LAWFUL })?;
    show_parts(rt, "a byte fewer", Parts { note: 1, ..LAWFUL })?;
    show_parts(rt, "a row more", Parts { rows: 3, ..LAWFUL })?;
    show_parts(
        rt,
        "a trailer alone",
        Parts {
            note: 0,
            rows: 0,
            offset: 0,
            count: 0,
            ..LAWFUL
        },
    )?;
    show_parts(
        rt,
        "1 row",
        Parts {
            note: 0,
            rows: 1,
            offset: 0,
            count: 1,
            ..LAWFUL
        },
    )?;
    show_parts(
        rt,
        "512 rows",
        Parts {
            rows: 512,
            count: 512,
            ..LAWFUL
        },
    )?;
    show_parts(
        rt,
        "513 rows",
        Parts {
            rows: 513,
            count: 513,
            ..LAWFUL
        },
    )?;
    show_parts(
        rt,
        "a note of 4096",
        Parts {
            note: 4096,
            offset: 4096,
            ..LAWFUL
        },
    )?;
    show_parts(
        rt,
        "a note of 4097",
        Parts {
            note: 4097,
            offset: 4097,
            ..LAWFUL
        },
    )?;
    show_parts(
        rt,
        "an offset past the end",
        Parts {
            offset: 4294967295,
            ..LAWFUL
        },
    )
}

/// Adds one to a byte of the trailer, each byte in turn.
fn try_damage(rt: &HostRuntime) -> anyhow::Result<()> {
    for i in 0..20usize {
        let mut file = file_of(rt.alloc(), LAWFUL)?;
        if let Some(b) = file.get_mut(42 + i) {
            *b = b.wrapping_add(1);
        }
        print!(rt; "trailer byte {i}, ")?;
        show(rt, "one more", file.as_slice(), MAX_ROWS)?;
    }
    Ok(())
}

/// Where several refusals would do, the smallest number is told.
fn try_order(rt: &HostRuntime) -> anyhow::Result<()> {
    let typeless = HeadNumbers { kind: 9, ..HEAD };
    show_parts(
        rt,
        "a bad mark and a bad count",
        Parts {
            mark: 0,
            count: 0,
            ..LAWFUL
        },
    )?;
    show_parts(
        rt,
        "a bad count and a bad kind",
        Parts {
            count: 0,
            head: typeless,
            ..LAWFUL
        },
    )?;
    let bad = file_of(
        rt.alloc(),
        Parts {
            head: typeless,
            ..LAWFUL
        },
    )?;
    show(rt, "a bad kind and no room", bad.as_slice(), 0)?;
    let room = Room::new(rt.alloc(), 1)?;
    let space = room.space().min(511);
    let full = Parts {
        rows: space,
        count: space as u16,
        ..LAWFUL
    };
    let over = Parts {
        rows: space + 1,
        count: space as u16 + 1,
        ..LAWFUL
    };
    let full = file_of(rt.alloc(), full)?;
    let over = file_of(rt.alloc(), over)?;
    let exact = load(full.as_slice(), room).is_ok();
    let again = Room::new(rt.alloc(), 1)?;
    let short = load(over.as_slice(), again).is_ok();
    println!(rt; "as many rows as the room: {exact}; one more: {short}")?;
    Ok(())
}

pub(crate) fn try_loads(rt: &HostRuntime) -> anyhow::Result<()> {
    try_lengths(rt)?;
    try_damage(rt)?;
    try_order(rt)
}
