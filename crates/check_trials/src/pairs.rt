//! Each infix operator on every pair of kinds and shapes.
use crate::verdict::{Refused, head, literal, row, verdict};
use sheet::Row;
use types::{Kind, Shape};

/// Kind, shape, r and s of a variable: every kind and shape, and sizes that differ.
const TYPES: [(Kind, Shape, u16, u16); 14] = [
    (Kind::Boolean, Shape::Scalar, 1, 1),
    (Kind::Boolean, Shape::Vector, 1, 2),
    (Kind::Boolean, Shape::Matrix, 2, 2),
    (Kind::Character, Shape::Scalar, 1, 1),
    (Kind::Character, Shape::Vector, 1, 2),
    (Kind::Character, Shape::Matrix, 2, 2),
    (Kind::Integer, Shape::Scalar, 1, 1),
    (Kind::Integer, Shape::Vector, 1, 2),
    (Kind::Integer, Shape::Vector, 1, 3),
    (Kind::Integer, Shape::Vector, 1, 8),
    (Kind::Integer, Shape::Matrix, 2, 2),
    (Kind::Integer, Shape::Matrix, 2, 4),
    (Kind::Integer, Shape::Matrix, 4, 2),
    (Kind::Integer, Shape::Interval, 1, 2),
];

/// The declaration of a variable of this type, with nulls.
fn declare((kind, shape, r, s): (Kind, Shape, u16, u16)) -> Row {
    let mut declare = row(20, 65535, u16::from(shape), u16::from(kind));
    declare.r = r;
    declare.s = s;
    declare
}

/// A line for each left type, a mark for each right type: a dot where the pair is accepted, else the last digit.
fn try_infix(rt: &HostRuntime, operator: u16) -> anyhow::Result<()> {
    println!(rt; "infix {operator}")?;
    for left in TYPES {
        for right in TYPES {
            let rows = [
                declare(left),
                declare(right),
                row(3, 0, 0, 0),
                row(3, 1, 0, 0),
                row(5, 2, 3, operator),
                literal(0),
                row(34, 5, 0, 0),
            ];
            match verdict(rt, head(8), &rows, 7)? {
                Ok(_) => print!(rt; ".")?,
                Err(Refused { number, .. }) => print!(rt; "{}", number % 10)?,
            }
        }
        println!(rt; "")?;
    }
    Ok(())
}

pub(crate) fn try_pairs(rt: &HostRuntime) -> anyhow::Result<()> {
    for operator in 1..19u16 {
        try_infix(rt, operator)?;
    }
    Ok(())
}
