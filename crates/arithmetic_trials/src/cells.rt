//! Cases over cells: elementwise operators, the first fault, spread scalars, casts, products.
use arithmetic::faults::ElementFault;
use arithmetic::integers::Arithmetic;
use arithmetic::truths::{Logic, Order};
use element::operands::Operand;
use elementwise::casts::cast;
use elementwise::infix::{calculate, compare, decide};
use elementwise::prefix::{negate, not};
use elementwise::products::{dot_product, matrix_product};
use std::io;

/// Prints a name and the fault that an element met.
fn faulted(rt: &HostRuntime, name: &str, met: ElementFault) -> io::Result<()> {
    let ElementFault { element, fault } = met;
    let number = u8::from(fault);
    println!(rt; "{name}: fault {number} at element {element}, {fault}")
}

/// Prints a name and the cells that were written, or the fault.
fn written(
    rt: &HostRuntime,
    name: &str,
    r: Result<(), ElementFault>,
    cells: &[i32],
) -> io::Result<()> {
    match r {
        Ok(()) => println!(rt; "{name}: {cells:?}"),
        Err(met) => faulted(rt, name, met),
    }
}

/// Two vectors of four integers.
pub(crate) fn vectors(rt: &HostRuntime) -> io::Result<()> {
    let a = Operand::Run(0);
    let b = Operand::Run(4);
    let mut t = [1, 2, i32::MAX, i32::MAX, 10, 20, 0, 1, 0, 0, 0, 0, 77];
    let r = calculate(&mut t, Arithmetic::Add, a, b, 8, 3);
    written(rt, "three sums", r, &t)?;
    let r = calculate(&mut t, Arithmetic::Add, a, b, 8, 4);
    written(rt, "four sums", r, &t)?;
    let r = calculate(&mut t, Arithmetic::Divide, a, b, 8, 4);
    written(rt, "quotients", r, &t)?;
    let r = calculate(&mut t, Arithmetic::Subtract, b, a, 8, 4);
    written(rt, "differences", r, &t)?;
    let r = negate(&mut t, 0, 8, 4);
    written(rt, "minus", r, &t)?;
    let r = calculate(&mut t, Arithmetic::Divide, a, b, 8, 0);
    written(rt, "nothing", r, &t)
}

/// A scalar on either side.
pub(crate) fn scalars(rt: &HostRuntime) -> io::Result<()> {
    let v = Operand::Run(0);
    let x = Operand::Scalar(3);
    let mut t = [1, 2, -3, 2, 0, 0, 0, 77];
    let r = calculate(&mut t, Arithmetic::Subtract, v, x, 4, 3);
    written(rt, "vector - scalar", r, &t)?;
    let r = calculate(&mut t, Arithmetic::Subtract, x, v, 4, 3);
    written(rt, "scalar - vector", r, &t)?;
    let r = calculate(&mut t, Arithmetic::Power, v, x, 4, 3);
    written(rt, "vector ^ scalar", r, &t)?;
    let r = calculate(&mut t, Arithmetic::Power, x, v, 4, 3);
    written(rt, "scalar ^ vector", r, &t)
}

/// Orders, logic and casts.
pub(crate) fn booleans(rt: &HostRuntime) -> io::Result<()> {
    let integers = [-1, 0, 128, 0];
    let a = Operand::Run(0);
    let mut b = [false; 9];
    compare(&integers, &mut b, Order::Less, a, Operand::Scalar(1), 0, 3);
    compare(
        &integers,
        &mut b,
        Order::AtMost,
        Operand::Scalar(1),
        a,
        3,
        3,
    );
    println!(rt; "v < 0, 0 <= v: {b:?}")?;
    decide(&mut b, Logic::Xor, a, Operand::Run(3), 6, 3);
    println!(rt; "xor: {b:?}")?;
    not(&mut b, 3, 6, 3);
    println!(rt; "not: {b:?}")?;
    let mut characters = [7i8; 4];
    cast(&integers, &mut characters, 0, 1, 3);
    println!(rt; "characters: {characters:?}")?;
    cast(&characters, &mut b, 0, 5, 4);
    println!(rt; "booleans: {b:?}")?;
    let mut numbers = [5i32; 4];
    cast(&b, &mut numbers, 0, 0, 3);
    println!(rt; "integers: {numbers:?}")
}

fn dot(rt: &HostRuntime, name: &str, r: Result<i32, ElementFault>) -> io::Result<()> {
    match r {
        Ok(z) => println!(rt; "{name} = {z}"),
        Err(met) => faulted(rt, name, met),
    }
}

/// Dot products: each product and each partial sum is within 32 bits, or that is the fault.
pub(crate) fn dots(rt: &HostRuntime) -> io::Result<()> {
    let t = [1, 2, 3, 4, 5, 6, i32::MAX, 1, -1, 1, 1, 1];
    dot(rt, "[1, 2, 3] ** [4, 5, 6]", dot_product(&t, 0, 3, 3))?;
    dot(rt, "[] ** []", dot_product(&t, 0, 3, 0))?;
    dot(rt, "[max, 1, -1] ** [1, 1, 1]", dot_product(&t, 6, 9, 3))?;
    dot(rt, "[1, -1] ** [1, 1]", dot_product(&t, 7, 9, 2))?;
    dot(rt, "[6, max] ** [6, max]", dot_product(&t, 5, 5, 2))
}

/// Matrix products, with elements counted row by row.
pub(crate) fn matrices(rt: &HostRuntime) -> io::Result<()> {
    let mut t = [1, 2, 3, 4, 5, 6, 7, 8, 9, 10, 11, 12, 0, 0, 0, 0, 77];
    let r = matrix_product(&mut t, 0, 6, 2, 3, 2, 12);
    written(rt, "2 x 3 by 3 x 2", r, &t)?;
    let mut u = [1, 1, i32::MAX, 1, 1, 0, 0, 1, 9, 9, 9, 9];
    let r = matrix_product(&mut u, 0, 4, 2, 2, 2, 8);
    written(rt, "by one", r, &u)?;
    let mut v = [1, 1, i32::MAX, 1, 1, 0, 1, 1, 9, 9, 9, 9];
    let r = matrix_product(&mut v, 0, 4, 2, 2, 2, 8);
    written(rt, "third element", r, &v)?;
    let mut w = [1, 2, 9, 9, 9, 9];
    let r = matrix_product(&mut w, 0, 2, 2, 0, 2, 2);
    written(rt, "2 x 0 by 0 x 2", r, &w)
}
