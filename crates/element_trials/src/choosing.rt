//! Elements of vectors picked by indices, and the first index that is outside.
use crate::show::show_vector;
use picks::{Beside, Index, Outside, Within, pick};

/// Shows the cells, or which index was outside.
fn show_vector_or(
    rt: &HostRuntime,
    name: &str,
    answer: Result<(), Outside>,
    table: &[i32],
    at: usize,
    n: usize,
) -> anyhow::Result<()> {
    if let Err(outside) = answer {
        println!(rt; "{name}: index {} is outside", outside.place)?;
        return Ok(());
    }
    show_vector(rt, name, table, at, n)
}

pub(crate) fn vectors(rt: &HostRuntime) -> anyhow::Result<()> {
    let mut table: [i32; 9] = [10, 20, 30, 3, 1, 3, 0, 0, 0];
    let answer = pick(
        &mut table,
        0,
        3,
        &Within,
        Index::Cells { at: 3, count: 3 },
        6,
    );
    show_vector_or(rt, "[10 20 30] at [3 1 3]", answer, &table, 6, 3)?;
    let answer = pick(
        &mut table,
        0,
        2,
        &Within,
        Index::Cells { at: 4, count: 2 },
        6,
    );
    show_vector_or(rt, "[10 20] at [1 3]", answer, &table, 6, 2)?;
    show_vector(rt, "the cells then", &table, 6, 3)?;
    let answer = pick(
        &mut table,
        0,
        3,
        &Within,
        Index::Cells { at: 6, count: 0 },
        6,
    );
    show_vector_or(rt, "at []", answer, &table, 6, 0)?;
    let answer = pick(
        &mut table,
        0,
        3,
        &Within,
        Index::Interval { low: 2, high: 3 },
        6,
    );
    show_vector_or(rt, "at 2..3", answer, &table, 6, 2)?;
    let answer = pick(
        &mut table,
        0,
        3,
        &Within,
        Index::Interval { low: 0, high: 1 },
        6,
    );
    show_vector_or(rt, "at 0..1", answer, &table, 6, 2)?;
    let answer = pick(
        &mut table,
        0,
        3,
        &Within,
        Index::Interval { low: 3, high: 5 },
        6,
    );
    show_vector_or(rt, "at 3..5", answer, &table, 6, 3)
}

pub(crate) fn beside(rt: &HostRuntime) -> anyhow::Result<()> {
    let integers: [i32; 3] = [2, 2, 1];
    let mut flags = [true, false, false, false, true, true];
    let answer = pick(
        &mut flags,
        0,
        2,
        &Beside {
            integers: &integers,
        },
        Index::Cells { at: 0, count: 3 },
        3,
    );
    if answer.is_ok() {
        show_vector(rt, "[T F] at [2 2 1]", &flags, 3, 3)?;
    }
    Ok(())
}
