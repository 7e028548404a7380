//! Every row, operator and type in words, and notes with bytes that are not printable.
#![tactic(auto)]

use sheet::{Kind, Row, Shape, Typing};
use std::io;
use words::{Escaped, RowWords, TypingWords};

/// A row whose fields all differ, with this operator or kind in c.
fn row(code: u16, c: u16) -> Row {
    Row {
        code,
        line: 9,
        a: 1,
        b: 2,
        c,
        d: 4,
        r: 1,
        s: 6,
        n: -7,
    }
}

fn show(rt: &HostRuntime, row: Row) -> io::Result<()> {
    println!(rt; "{}, {}: {}", row.code, row.c, RowWords(row))
}

fn show_codes(rt: &HostRuntime) -> io::Result<()> {
    for code in 0..36u16 {
        show(rt, row(code, 3))?;
    }
    Ok(())
}

fn show_operators(rt: &HostRuntime) -> io::Result<()> {
    for operator in 0..4u16 {
        show(rt, row(4, operator))?;
    }
    for operator in 0..20u16 {
        show(rt, row(5, operator))?;
    }
    for asked in 0..7u16 {
        show(rt, row(10, asked))?;
    }
    for kind in 0..5u16 {
        show(rt, row(11, kind))?;
    }
    Ok(())
}

fn show_types(rt: &HostRuntime) -> io::Result<()> {
    for shape in [Shape::Scalar, Shape::Vector, Shape::Matrix, Shape::Interval] {
        for s in [None, Some(5)] {
            rt.println(TypingWords(Typing {
                kind: Kind::Boolean,
                shape,
                r: Some(3),
                s,
            }))?;
        }
    }
    Ok(())
}

fn main(rt: HostRuntime) -> io::Result<()> {
    show_codes(&rt)?;
    show_operators(&rt)?;
    show_types(&rt)?;
    rt.println(Escaped(b"a b~\n\r\t\"\\\x00\x1f\x7f\xff"))?;
    rt.println(Escaped(b""))
}
