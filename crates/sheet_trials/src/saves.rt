//! Saving sheets, and loading them again.
use crate::files::{HEAD, row};
use sheet::{Draft, MAX_ROWS, Refusal, Room, load, make};

fn draft(rt: &HostRuntime) -> anyhow::Result<Draft> {
    let room = Room::new(rt.alloc(), MAX_ROWS)?;
    Ok(make(HEAD, &[row(-2147483648), row(2147483647)], room)?)
}

/// What the save says, and how many bytes of the buffer, which were all 9, are not 9 now.
fn show(
    rt: &HostRuntime,
    name: &str,
    said: Result<usize, Refusal>,
    out: &[u8],
) -> anyhow::Result<()> {
    let last = out.iter().rposition(|b| *b != 9).unwrap_or(0);
    match said {
        Ok(n) => println!(rt; "save {name}: {n} bytes, the last changed is {last}")?,
        Err(refusal) => {
            let number = u16::from(refusal);
            println!(rt; "save {name}: refused {number}, the last changed is {last}")?;
        }
    }
    Ok(())
}

fn try_buffers(rt: &HostRuntime, draft: &Draft) -> anyhow::Result<()> {
    for len in [0usize, 61, 62, 63, 100] {
        let mut out = vec![in rt.alloc(); 9u8; len]?;
        let said = draft.save(b"hi", out.as_mut_slice());
        print!(rt; "buffer of {len}, ")?;
        show(rt, "a note of 2", said, out.as_slice())?;
    }
    Ok(())
}

fn try_notes(rt: &HostRuntime, draft: &Draft) -> anyhow::Result<()> {
    for len in [0usize, 4096, 4097] {
        let note = vec![in rt.alloc(); 65u8; len]?;
        let mut out = vec![in rt.alloc(); 9u8; 5000]?;
        let said = draft.save(note.as_slice(), out.as_mut_slice());
        print!(rt; "note of {len}, ")?;
        show(rt, "to 5000", said, out.as_slice())?;
    }
    let mut out = [9u8; 10];
    let note = vec![in rt.alloc(); 65u8; 4097]?;
    let said = draft.save(note.as_slice(), &mut out);
    show(rt, "too long a note to 10", said, &out)
}

fn try_again(rt: &HostRuntime, draft: &Draft) -> anyhow::Result<()> {
    let mut out = [9u8; 62];
    let _ = draft.save(b"hi", &mut out);
    let room = Room::new(rt.alloc(), 2)?;
    if let Ok((again, note)) = load(&out, room) {
        let len = note.len();
        println!(rt; "loaded again: note of {len}")?;
        for row in again.rows() {
            println!(rt; "{row:?}")?;
        }
    }
    Ok(())
}

pub(crate) fn try_saves(rt: &HostRuntime) -> anyhow::Result<()> {
    let draft = draft(rt)?;
    try_buffers(rt, &draft)?;
    try_notes(rt, &draft)?;
    try_again(rt, &draft)
}
