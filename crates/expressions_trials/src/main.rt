//! A table of cases: the layout of what two values give, element by element, or the row's fault.
#![tactic(auto)]

use expressions::operands::guard_pair;
use fault::Fault;
use meaning::{Layout, Place};
use std::io;
use types::{Kind, Shape};

/// Rows of four cells.
const PLACE: Place = Place {
    width: 4,
    row: 5,
    line: 9,
};

fn matrix(r: usize, s: usize) -> Layout {
    Layout {
        kind: Kind::Integer,
        shape: Shape::Matrix,
        r,
        s,
    }
}

fn interval() -> Layout {
    Layout {
        kind: Kind::Integer,
        shape: Shape::Interval,
        r: 1,
        s: 2,
    }
}

/// Prints a case with what was told.
fn show(rt: &HostRuntime, name: &str, told: Result<Layout, Fault>) -> io::Result<()> {
    match told {
        Ok(f) => {
            let Layout { kind, shape, r, s } = f;
            println!(rt; "{name}: {kind:?} {shape:?}, {r} by {s}")
        }
        Err(fault) => println!(rt; "{name}: {fault}"),
    }
}

/// Two values that a row of integers takes, which gives integers.
fn calculated(rt: &HostRuntime, name: &str, x: Layout, y: Layout) -> io::Result<()> {
    let told = guard_pair(PLACE, Kind::Integer, Kind::Integer, x, y);
    show(rt, name, told)
}

fn agreeing(rt: &HostRuntime) -> io::Result<()> {
    let one = Layout::scalar(Kind::Integer);
    let three = Layout::vector(Kind::Integer, 3);
    calculated(rt, "two scalars", one, one)?;
    calculated(rt, "a scalar and three", one, three)?;
    calculated(rt, "three and a scalar", three, one)?;
    calculated(rt, "three and three", three, three)?;
    calculated(
        rt,
        "none and a scalar",
        Layout::vector(Kind::Integer, 0),
        one,
    )?;
    calculated(rt, "a matrix and a scalar", matrix(2, 2), one)?;
    calculated(rt, "two matrices", matrix(2, 2), matrix(2, 2))
}

fn differing(rt: &HostRuntime) -> io::Result<()> {
    let one = Layout::scalar(Kind::Integer);
    let three = Layout::vector(Kind::Integer, 3);
    calculated(rt, "three and two", three, Layout::vector(Kind::Integer, 2))?;
    calculated(rt, "a row and a column", matrix(1, 3), matrix(3, 1))?;
    calculated(rt, "a vector and a matrix", three, matrix(1, 3))?;
    calculated(rt, "an interval", interval(), one)?;
    calculated(rt, "a boolean", one, Layout::scalar(Kind::Boolean))?;
    calculated(
        rt,
        "five in rows of four",
        Layout::vector(Kind::Integer, 5),
        one,
    )?;
    calculated(
        rt,
        "five and three",
        Layout::vector(Kind::Integer, 5),
        three,
    )
}

/// Rows whose elements are of another kind than their operands', and rows of booleans.
fn of_other_kinds(rt: &HostRuntime) -> io::Result<()> {
    let three = Layout::vector(Kind::Integer, 3);
    let truths = Layout::vector(Kind::Boolean, 3);
    let told = guard_pair(PLACE, Kind::Integer, Kind::Boolean, three, three);
    show(rt, "integers in order", told)?;
    let told = guard_pair(PLACE, Kind::Boolean, Kind::Boolean, truths, truths);
    show(rt, "booleans joined", told)?;
    let told = guard_pair(PLACE, Kind::Boolean, Kind::Boolean, three, three);
    show(rt, "integers joined", told)
}

fn main(rt: HostRuntime) -> io::Result<()> {
    agreeing(&rt)?;
    differing(&rt)?;
    of_other_kinds(&rt)
}
