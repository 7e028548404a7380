//! Elements stored at indices, where later ones win.
use crate::show::{show_matrix, show_vector};
use element::operands::Operand;
use picks::{Index, Outside, Within, store, store_matrix};

/// Says which index was outside, if one was.
fn tell(rt: &HostRuntime, name: &str, answer: Result<(), Outside>) -> anyhow::Result<()> {
    match answer {
        Ok(()) => println!(rt; "{name}: stored")?,
        Err(outside) => println!(rt; "{name}: index {} is outside", outside.place)?,
    }
    Ok(())
}

pub(crate) fn vectors(rt: &HostRuntime) -> anyhow::Result<()> {
    let mut table: [i32; 9] = [10, 20, 30, 1, 3, 1, 7, 8, 9];
    let answer = store(
        &mut table,
        0,
        3,
        &Within,
        Index::Cells { at: 3, count: 3 },
        Operand::Run(6),
    );
    tell(rt, "[7 8 9] at [1 3 1]", answer)?;
    show_vector(rt, "the variable then", &table, 0, 3)?;
    let answer = store(
        &mut table,
        0,
        3,
        &Within,
        Index::Interval { low: 2, high: 3 },
        Operand::Scalar(6),
    );
    tell(rt, "7 at 2..3", answer)?;
    show_vector(rt, "the variable then", &table, 0, 3)?;
    let answer = store(
        &mut table,
        0,
        2,
        &Within,
        Index::Cells { at: 3, count: 3 },
        Operand::Run(6),
    );
    tell(rt, "two elements, [7 8 9] at [1 3 1]", answer)?;
    show_vector(rt, "the variable then", &table, 0, 3)
}

pub(crate) fn matrices(rt: &HostRuntime) -> anyhow::Result<()> {
    let mut table: [i32; 4] = [1, 2, 3, 4];
    let answer = store_matrix(&mut table, 0, 2, 2, 2, 1, 9);
    tell(rt, "9 at row 2, column 1", answer)?;
    show_matrix(rt, "the matrix then", &table, 0, 2, 2)?;
    let answer = store_matrix(&mut table, 0, 2, 2, 3, 1, 9);
    tell(rt, "at row 3, column 1", answer)?;
    let answer = store_matrix(&mut table, 0, 2, 2, 1, 0, 9);
    tell(rt, "at row 1, column 0", answer)?;
    show_matrix(rt, "the matrix then", &table, 0, 2, 2)
}
