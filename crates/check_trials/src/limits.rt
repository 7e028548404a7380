//! The largest sheets, and sheets one past them.
use crate::verdict::{Refused, head, literal, row, verdict};
use sheet::{HeadNumbers, Row};
use std::alloc::{AllocError, Global};

/// Loops one in the other, and a return after them.
fn nested(heap: Global, depth: u16) -> Result<Vec<Row>, AllocError> {
    let mut rows = Vec::new(heap);
    let depth = depth.min(100);
    for i in 0..depth {
        rows.push(row(26, 0, 2 * depth - 1 - i, 0))?;
    }
    for i in 0..depth {
        rows.push(row(31, 0, depth - 1 - i, 0))?;
    }
    rows.push(literal(0))?;
    rows.push(row(34, 2 * depth, 0, 0))?;
    Ok(rows)
}

/// Literals and a return.
fn long(heap: Global, count: usize) -> Result<Vec<Row>, AllocError> {
    let mut rows = Vec::new(heap);
    for _ in 1..count {
        rows.push(literal(0))?;
    }
    rows.push(row(34, 0, 0, 0))?;
    Ok(rows)
}

fn show(
    rt: &HostRuntime,
    name: &str,
    head: HeadNumbers,
    rows: &[Row],
    space: usize,
) -> anyhow::Result<()> {
    match verdict(rt, head, rows, space)? {
        Ok(lines) => println!(rt; "{name}: 0 at {lines}")?,
        Err(Refused { number, row }) => println!(rt; "{name}: {number} at {row}")?,
    }
    Ok(())
}

pub(crate) fn try_limits(rt: &HostRuntime) -> anyhow::Result<()> {
    let deep = nested(rt.alloc(), 32)?;
    show(rt, "32 deep", head(8), deep.as_slice(), deep.len())?;
    let deeper = nested(rt.alloc(), 33)?;
    show(rt, "33 deep", head(8), deeper.as_slice(), deeper.len())?;
    let most = long(rt.alloc(), 512)?;
    show(rt, "512 rows", head(1024), most.as_slice(), 512)?;
    let over = long(rt.alloc(), 513)?;
    show(
        rt,
        "513 rows are not made",
        head(1024),
        over.as_slice(),
        513,
    )?;
    show(
        rt,
        "512 rows in a room for one",
        head(1024),
        most.as_slice(),
        1,
    )
}
