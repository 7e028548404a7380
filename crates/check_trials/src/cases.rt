//! The table of cases on standard input.
//!
//! A line is `NAME: ROW; ROW; ..`, and a row is its code and its fields a, b, c, d, r, s and n, as many as are not 0.
use crate::verdict::{Refused, head, verdict};
use sheet::Row;
use std::alloc::Global;

fn numbers_of(heap: Global, text: &str) -> anyhow::Result<Vec<i32>> {
    let mut numbers = Vec::new(heap);
    for word in text.split_whitespace() {
        numbers.push(word.parse::<i32>()?)?;
    }
    Ok(numbers)
}

fn number(numbers: &[i32], i: usize) -> i32 {
    numbers.get(i).copied().unwrap_or(0)
}

fn field(numbers: &[i32], i: usize) -> u16 {
    u16::try_from(number(numbers, i)).unwrap_or(0)
}

fn row_of(numbers: &[i32]) -> Row {
    Row {
        code: field(numbers, 0),
        line: 0,
        a: field(numbers, 1),
        b: field(numbers, 2),
        c: field(numbers, 3),
        d: field(numbers, 4),
        r: field(numbers, 5),
        s: field(numbers, 6),
        n: number(numbers, 7),
    }
}

fn try_case(rt: &HostRuntime, name: &str, text: &str) -> anyhow::Result<()> {
    let mut rows = Vec::new(rt.alloc());
    for part in text.split(';') {
        let numbers = numbers_of(rt.alloc(), part)?;
        rows.push(row_of(numbers.as_slice()))?;
    }
    let count = rows.len();
    match verdict(rt, head(8), rows.as_slice(), count)? {
        Ok(_) => println!(rt; "{name}: accepted")?,
        Err(Refused { number, row }) => println!(rt; "{name}: {number} at row {row}")?,
    }
    Ok(())
}

pub(crate) fn try_cases(rt: &HostRuntime) -> anyhow::Result<()> {
    for line in rt.lines(rt.alloc()) {
        let line = line?;
        match line.as_str().split_once(':') {
            Some((name, text)) => try_case(rt, name, text)?,
            None => rt.println(line.as_str())?,
        }
    }
    Ok(())
}
