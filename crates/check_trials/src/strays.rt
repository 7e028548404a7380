//! Each code with one field more than it names.
use crate::verdict::{Refused, head, row, verdict};
use sheet::Row;

/// A row of this code whose own fields keep the rules, but for what they name.
fn lawful(code: u16) -> Row {
    let kind = match code {
        1 | 2 => 1,
        _ => 0,
    };
    let operator = match code {
        4 | 5 | 10 | 11 | 20 => 1,
        _ => 0,
    };
    let fixed = match code {
        20 => 1,
        _ => 0,
    };
    let mut lawful = row(code, kind, fixed, operator);
    lawful.line = 7;
    lawful.r = fixed;
    lawful.s = fixed;
    lawful
}

/// The row with a 1 in one of its fields.
fn with_one(mut row: Row, field: u8) -> Row {
    match field {
        0 => row.a = 1,
        1 => row.b = 1,
        2 => row.c = 1,
        3 => row.d = 1,
        4 => row.r = 1,
        5 => row.s = 1,
        _ => row.n = 1,
    }
    row
}

/// For each field a 5 where a 1 in it is refused with 5, and a dash where it is not.
fn try_code(rt: &HostRuntime, code: u16) -> anyhow::Result<()> {
    print!(rt; "code {code}: ")?;
    for field in 0..7u8 {
        match verdict(rt, head(8), &[with_one(lawful(code), field)], 1)? {
            Err(Refused { number: 5, .. }) => print!(rt; "5")?,
            _ => print!(rt; "-")?,
        }
    }
    println!(rt; "")?;
    Ok(())
}

pub(crate) fn try_strays(rt: &HostRuntime) -> anyhow::Result<()> {
    for code in 0..36u16 {
        try_code(rt, code)?;
    }
    Ok(())
}
