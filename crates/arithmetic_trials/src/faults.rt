//! A row takes up an element's fault as its own: by `From`, carried by `?`, with row, line and element.
use arithmetic::faults::at_row;
use arithmetic::integers::Arithmetic;
use element::operands::Operand;
use elementwise::infix::calculate;
use fault::{Cause, Fault};
use std::io;

/// Row 2 divides row 0 by row 1, each of three cells.
fn quotients(table: &mut [i32], row: u16, line: u16) -> Result<(), Fault> {
    if row != 2 || table.len() < 9 {
        return Err(Fault::of_row(row, line, Cause::NoRule));
    }
    let worked = calculate(
        table,
        Arithmetic::Divide,
        Operand::Run(0),
        Operand::Run(3),
        6,
        3,
    );
    at_row(worked, row, line)?;
    Ok(())
}

fn told(rt: &HostRuntime, r: Result<(), Fault>) -> io::Result<()> {
    match r {
        Ok(()) => println!(rt; "worked"),
        Err(fault) => println!(rt; "{fault}"),
    }
}

/// A row whose third element faults, one that works, one that has no rule, and an index outside.
pub(crate) fn rows(rt: &HostRuntime) -> io::Result<()> {
    let mut table = [6, 8, 10, 1, 2, 0, 0, 0, 0];
    told(rt, quotients(&mut table, 2, 40))?;
    table[5] = 3;
    told(rt, quotients(&mut table, 2, 40))?;
    told(rt, quotients(&mut table, 3, 41))?;
    told(rt, Err(Fault::of_index(7, 42, 2)))
}
