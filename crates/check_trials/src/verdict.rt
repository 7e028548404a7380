//! What check says of some rows.
use checker::check;
use sheet::{HeadNumbers, Row, make};

/// A row's code and its first three fields; the others are 0.
pub(crate) fn row(code: u16, a: u16, b: u16, c: u16) -> Row {
    Row {
        code,
        line: 0,
        a,
        b,
        c,
        d: 0,
        r: 0,
        s: 0,
        n: 0,
    }
}

/// The literal of an integer.
pub(crate) fn literal(n: i32) -> Row {
    let mut literal = row(1, 3, 0, 0);
    literal.n = n;
    literal
}

/// The head of a sheet that returns an integer scalar.
pub(crate) fn head(width: u16) -> HeadNumbers {
    HeadNumbers {
        width,
        kind: 3,
        shape: 1,
        r: 1,
        s: 1,
        form: 1,
    }
}

/// The number of a refusal, and the row that is refused: row 0 for a head or rows of which no draft is made.
#[derive(Clone, Copy, Debug, PartialEq, Eq)]
pub(crate) struct Refused {
    pub(crate) number: u16,
    pub(crate) row: usize,
}

/// The number of lines of the checked sheet, or its refusal.
pub(crate) type Verdict = Result<usize, Refused>;

pub(crate) fn verdict(
    rt: &HostRuntime,
    head: HeadNumbers,
    rows: &[Row],
    space: usize,
) -> anyhow::Result<Verdict> {
    let room = sheet::Room::new(rt.alloc(), rows.len())?;
    match make(head, rows, room) {
        Err(refused) => Ok(Err(Refused {
            number: u16::from(refused.refusal),
            row: 0,
        })),
        Ok(draft) => {
            let room = checker::Room::new(rt.alloc(), space)?;
            match check(draft, room) {
                Ok(sheet) => Ok(Ok(sheet.lines().len())),
                Err(refused) => Ok(Err(Refused {
                    number: u16::from(refused.refusal),
                    row: refused.row,
                })),
            }
        }
    }
}
