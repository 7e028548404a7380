//! Texts of scalars, vectors and matrices, and outputs that are too short.
use crate::show::{show_matrix, show_scalar, show_text, show_vector};
use print::{print_scalar, print_vector};

pub(crate) fn scalars(rt: &HostRuntime) -> anyhow::Result<()> {
    show_scalar(rt, "least integer", i32::MIN)?;
    show_scalar(rt, "greatest integer", i32::MAX)?;
    show_scalar(rt, "zero", 0i32)?;
    show_scalar(rt, "minus ten", -10i32)?;
    show_scalar(rt, "true", true)?;
    show_scalar(rt, "false", false)?;
    show_scalar(rt, "character 65", 65i8)?;
    let mut buffer = [0u8; 2];
    let first = print_scalar(-61i8, &mut buffer, 0);
    let second = print_scalar(-87i8, &mut buffer, 1);
    println!(rt;
        "characters -61 and -87 end at {:?} and {:?}",
        first, second
    )?;
    show_text(rt, "bytes 195 and 169", &buffer, second)?;
    print_scalar(-1i8, &mut buffer, 1);
    println!(rt; "character -1 is the byte {}", buffer[1])?;
    Ok(())
}

pub(crate) fn vectors(rt: &HostRuntime) -> anyhow::Result<()> {
    let integers: [i32; 3] = [1, -2, 30];
    show_vector(rt, "vector", &integers, 0, 3)?;
    show_vector(rt, "its last", &integers, 2, 1)?;
    show_vector(rt, "empty vector", &integers, 3, 0)?;
    show_vector(rt, "booleans", &[true, false], 0, 2)?;
    show_vector(rt, "characters", &[72i8, 105], 0, 2)
}

pub(crate) fn matrices(rt: &HostRuntime) -> anyhow::Result<()> {
    let integers: [i32; 6] = [1, 2, 3, 4, 5, 6];
    show_matrix(rt, "2 by 2", &integers, 0, 2, 2)?;
    show_matrix(rt, "2 by 3", &integers, 0, 2, 3)?;
    show_matrix(rt, "3 by 1", &integers, 3, 3, 1)?;
    show_matrix(rt, "no rows", &integers, 0, 0, 2)?;
    show_matrix(rt, "2 rows, no columns", &integers, 0, 2, 0)
}

pub(crate) fn room(rt: &HostRuntime) -> anyhow::Result<()> {
    let integers: [i32; 2] = [10, 20];
    let mut short = *b"......";
    let refused = print_vector(&integers, 0, 2, &mut short, 0);
    show_text(rt, "7 bytes into 6", &short, refused)?;
    show_text(rt, "the output then", &short, Some(6))?;
    let mut enough = *b".......";
    let end = print_vector(&integers, 0, 2, &mut enough, 0);
    show_text(rt, "7 bytes into 7", &enough, end)?;
    let mut later = *b"........";
    let refused = print_vector(&integers, 0, 2, &mut later, 2);
    show_text(rt, "7 bytes into 8 from 2 on", &later, refused)?;
    let end = print_vector(&integers, 0, 2, &mut later, 1);
    show_text(rt, "from 1 on", &later, end)
}
