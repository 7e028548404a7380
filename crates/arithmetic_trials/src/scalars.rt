//! Cases of single elements: operators at the edges.
use arithmetic::faults::ArithmeticFault;
use arithmetic::integers::{Arithmetic, Negative};
use arithmetic::operators::{Function, Operator};
use arithmetic::truths::{Logic, Negation, Order};
use std::io;

const OPERATORS: [Arithmetic; 6] = [
    Arithmetic::Add,
    Arithmetic::Subtract,
    Arithmetic::Multiply,
    Arithmetic::Divide,
    Arithmetic::Remainder,
    Arithmetic::Power,
];

const EDGES: [i32; 5] = [0, 1, -1, i32::MAX, i32::MIN];

fn sign(op: Arithmetic) -> &'static str {
    match op {
        Arithmetic::Add => "+",
        Arithmetic::Subtract => "-",
        Arithmetic::Multiply => "*",
        Arithmetic::Divide => "/",
        Arithmetic::Remainder => "%",
        Arithmetic::Power => "^",
    }
}

/// T or F.
pub(crate) fn letter(b: bool) -> char {
    if b { 'T' } else { 'F' }
}

/// Prints the result, or the fault and its number.
pub(crate) fn result(rt: &HostRuntime, r: Result<i32, ArithmeticFault>) -> io::Result<()> {
    match r {
        Ok(z) => println!(rt; "{z}"),
        Err(fault) => {
            let number = u8::from(fault);
            println!(rt; "fault {number}, {fault}")
        }
    }
}

fn case(rt: &HostRuntime, x: i32, op: Arithmetic, y: i32) -> io::Result<()> {
    let s = sign(op);
    print!(rt; "{x} {s} {y} = ")?;
    result(rt, op.apply(x, y))
}

/// Every operator at the edges, with itself and each other; then a few more.
pub(crate) fn operators(rt: &HostRuntime) -> io::Result<()> {
    for op in OPERATORS {
        for x in EDGES {
            for y in EDGES {
                case(rt, x, op, y)?;
            }
        }
    }
    case(rt, -7, Arithmetic::Remainder, 3)?;
    case(rt, 7, Arithmetic::Remainder, -3)?;
    case(rt, -7, Arithmetic::Divide, 2)?;
    case(rt, 7, Arithmetic::Divide, -2)?;
    case(rt, 2, Arithmetic::Power, 30)?;
    case(rt, 2, Arithmetic::Power, 31)?;
    case(rt, -2, Arithmetic::Power, 31)?;
    case(rt, -2, Arithmetic::Power, 32)?;
    case(rt, 46341, Arithmetic::Multiply, 46341)?;
    case(rt, 46340, Arithmetic::Multiply, 46340)?;
    case(rt, -1, Arithmetic::Power, i32::MAX)
}

/// The four orders at the edges.
pub(crate) fn orders(rt: &HostRuntime) -> io::Result<()> {
    for x in EDGES {
        for y in EDGES {
            let less = letter(Order::Less.apply(x, y));
            let greater = letter(Order::Greater.apply(x, y));
            let at_most = letter(Order::AtMost.apply(x, y));
            let at_least = letter(Order::AtLeast.apply(x, y));
            println!(rt; "{x}, {y}: < {less}, > {greater}, <= {at_most}, >= {at_least}")?;
        }
    }
    Ok(())
}

/// The logic of booleans.
pub(crate) fn logic(rt: &HostRuntime) -> io::Result<()> {
    for x in [false, true] {
        for y in [false, true] {
            let p = letter(x);
            let q = letter(y);
            let and = letter(Logic::And.apply(x, y));
            let or = letter(Logic::Or.apply(x, y));
            let xor = letter(Logic::Xor.apply(x, y));
            println!(rt; "{p}, {q}: and {and}, or {or}, xor {xor}")?;
        }
    }
    Ok(())
}

/// The operators before one value.
pub(crate) fn prefixes(rt: &HostRuntime) -> io::Result<()> {
    for x in EDGES {
        print!(rt; "-({x}) = ")?;
        result(rt, Negative.apply(x))?;
    }
    for x in [false, true] {
        let p = letter(x);
        let q = letter(Negation.apply(x));
        println!(rt; "not {p} = {q}")?;
    }
    Ok(())
}
