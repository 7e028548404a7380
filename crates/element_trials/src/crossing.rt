//! Elements of a matrix picked by rows and columns, and intervals that stand for vectors.
use crate::show::{show_matrix, show_vector};
use picks::intervals::{step_interval, write_interval};
use picks::{Index, Outside, Within, pick_matrix};

/// Shows a matrix, or which index was outside.
fn show_matrix_or(
    rt: &HostRuntime,
    name: &str,
    answer: Result<(), Outside>,
    table: &[i32],
    at: usize,
    r: usize,
    s: usize,
) -> anyhow::Result<()> {
    if let Err(outside) = answer {
        println!(rt; "{name}: index {} is outside", outside.place)?;
        return Ok(());
    }
    show_matrix(rt, name, table, at, r, s)
}

pub(crate) fn matrices(rt: &HostRuntime) -> anyhow::Result<()> {
    let mut table: [i32; 14] = [1, 2, 3, 4, 5, 6, 2, 1, 3, 1, 0, 0, 0, 0];
    let rows = Index::Cells { at: 6, count: 2 };
    let answer = pick_matrix(
        &mut table,
        0,
        2,
        3,
        &Within,
        rows,
        Index::Cells { at: 8, count: 2 },
        10,
    );
    show_matrix_or(rt, "rows [2 1], columns [3 1]", answer, &table, 10, 2, 2)?;
    let answer = pick_matrix(
        &mut table,
        0,
        2,
        3,
        &Within,
        rows,
        Index::Interval { low: 2, high: 3 },
        10,
    );
    show_matrix_or(rt, "rows [2 1], columns 2..3", answer, &table, 10, 2, 2)?;
    let answer = pick_matrix(
        &mut table,
        0,
        2,
        3,
        &Within,
        Index::Interval { low: 2, high: 3 },
        rows,
        10,
    );
    show_matrix_or(rt, "rows 2..3, columns [2 1]", answer, &table, 10, 2, 2)?;
    let answer = pick_matrix(
        &mut table,
        0,
        2,
        3,
        &Within,
        rows,
        Index::Interval { low: 3, high: 4 },
        10,
    );
    show_matrix_or(rt, "rows [2 1], columns 3..4", answer, &table, 10, 2, 2)
}

pub(crate) fn intervals(rt: &HostRuntime) -> anyhow::Result<()> {
    let mut table: [i32; 6] = [9, 9, 9, 9, 9, 9];
    write_interval(&mut table, -2, 1, 1);
    show_vector(rt, "-2..1", &table, 0, 6)?;
    step_interval(&mut table, -2, 3, 4, 2);
    show_vector(rt, "-2..3 by 4", &table, 2, 2)
}
