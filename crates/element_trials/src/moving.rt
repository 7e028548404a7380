//! Vectors and matrices moved, padded, cut, stacked and compared.
use crate::show::{show_matrix, show_vector};
use element::cells::{copy, join, resize, reverse, spread};
use element::equality::{equal, equal_throughout};
use element::matrices::{resize_matrix, stack};
use element::steps::step_by;

pub(crate) fn vectors(rt: &HostRuntime) -> anyhow::Result<()> {
    let mut table: [i32; 9] = [5, 6, 7, 9, 9, 9, 9, 9, 9];
    copy(&mut table, 1, 2, 3);
    show_vector(rt, "copy", &table, 0, 9)?;
    resize(&mut table, 0, 3, 3, 5);
    show_vector(rt, "pad", &table, 0, 9)?;
    resize(&mut table, 0, 3, 3, 2);
    show_vector(rt, "cut", &table, 3, 2)?;
    spread(&mut table, 8, 6, 2);
    show_vector(rt, "spread", &table, 5, 4)?;
    let mut letters: [i8; 4] = [72, 105, 1, 1];
    resize(&mut letters, 0, 1, 1, 2);
    show_vector(rt, "pad with the byte 0", &letters, 2, 1)?;
    let mut flags = [true, true, true, true];
    resize(&mut flags, 0, 1, 1, 3);
    show_vector(rt, "pad with false", &flags, 0, 4)
}

pub(crate) fn orders(rt: &HostRuntime) -> anyhow::Result<()> {
    let mut table: [i32; 10] = [1, 2, 3, 4, 5, 0, 0, 0, 0, 0];
    reverse(&mut table, 0, 5, 5);
    show_vector(rt, "reverse", &table, 0, 10)?;
    join(&mut table, 3, 2, 0, 1, 6);
    show_vector(rt, "join", &table, 5, 5)?;
    step_by(&mut table, 0, 5, 2, 6);
    show_vector(rt, "by 2", &table, 6, 3)?;
    step_by(&mut table, 0, 5, 3, 6);
    show_vector(rt, "by 3", &table, 6, 2)?;
    step_by(&mut table, 0, 5, 7, 6);
    show_vector(rt, "by 7", &table, 6, 1)?;
    let mut empty: [i32; 0] = [];
    reverse(&mut empty, 0, 0, 0);
    step_by(&mut empty, 0, 0, 4, 0);
    show_vector(rt, "nothing reversed and stepped", &empty, 0, 0)
}

pub(crate) fn matrices(rt: &HostRuntime) -> anyhow::Result<()> {
    let mut table: [i32; 14] = [1, 2, 3, 4, 7, 7, 7, 7, 7, 7, 7, 7, 7, 7];
    resize_matrix(&mut table, 0, 2, 2, 4, 3, 3);
    show_matrix(rt, "2 by 2 to 3 by 3", &table, 4, 3, 3)?;
    resize_matrix(&mut table, 0, 2, 2, 4, 1, 1);
    show_matrix(rt, "to 1 by 1", &table, 4, 1, 1)?;
    resize_matrix(&mut table, 0, 2, 2, 4, 1, 3);
    show_matrix(rt, "to 1 by 3", &table, 4, 1, 3)?;
    resize_matrix(&mut table, 0, 2, 2, 4, 3, 1);
    show_matrix(rt, "to 3 by 1", &table, 4, 3, 1)?;
    stack(&mut table, 0, 1, 3, 3, 1, 4);
    show_matrix(rt, "a vector under a wider one", &table, 4, 2, 3)?;
    stack(&mut table, 0, 2, 1, 2, 2, 4);
    show_matrix(rt, "a vector under a narrower matrix", &table, 4, 3, 2)?;
    show_vector(rt, "and what lies behind", &table, 10, 4)
}

pub(crate) fn comparisons(rt: &HostRuntime) -> anyhow::Result<()> {
    let table: [i32; 6] = [1, 2, 1, 2, 2, 2];
    println!(rt; "[1 2] and [1 2]: {}", equal(&table, 0, 2, 2))?;
    println!(rt; "[1 2] and [2 2]: {}", equal(&table, 0, 3, 2))?;
    println!(rt; "[] and []: {}", equal(&table, 0, 1, 0))?;
    println!(rt; "[2 2 2] and 2: {}", equal_throughout(&table, 3, 3, 2))?;
    println!(rt; "[1 2] and 2: {}", equal_throughout(&table, 0, 2, 2))?;
    println!(rt; "[] and 5: {}", equal_throughout(&table, 6, 0, 5))?;
    Ok(())
}
