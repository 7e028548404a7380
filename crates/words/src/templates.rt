//! The words of each code: one table, by the numbers that a file has.
//!
//! In a template `%a`, `%b`, `%c`, `%d`, `%r`, `%s` and `%n` stand for the row's field of that name, `%k`
//! for the kind whose number is in a, `%K` for that in c, and `%t` for the type that c, b, r and s write.
use crate::row::declared;
use arithmetic::integers::Arithmetic;
use arithmetic::truths::{Logic, Order};
use instruction::{Equality, Infix, Measure, Prefix};
use sheet::{Kind, Row};

/// In field a of a declaration: it has no value, and its elements are nulls.
const NO_VALUE: u16 = 65535;

fn prefix(operation: Prefix) -> &'static str {
    match operation {
        Prefix::Minus => "minus row %a",
        Prefix::Not => "not row %a",
    }
}

fn arithmetic(operation: Arithmetic) -> &'static str {
    match operation {
        Arithmetic::Add => "add rows %a and %b",
        Arithmetic::Subtract => "from row %a subtract row %b",
        Arithmetic::Multiply => "multiply rows %a and %b",
        Arithmetic::Divide => "divide row %a by row %b",
        Arithmetic::Remainder => "remainder of row %a by row %b",
        Arithmetic::Power => "row %a to the power of row %b",
    }
}

fn infix(operation: Infix) -> &'static str {
    match operation {
        Infix::Arithmetic(op) => arithmetic(op),
        Infix::Order(Order::Less) => "whether row %a is less than row %b",
        Infix::Order(Order::Greater) => "whether row %a is greater than row %b",
        Infix::Order(Order::AtMost) => "whether row %a is at most row %b",
        Infix::Order(Order::AtLeast) => "whether row %a is at least row %b",
        Infix::Equality(Equality::Equal) => "whether rows %a and %b are equal",
        Infix::Equality(Equality::Unequal) => "whether rows %a and %b differ",
        Infix::Logic(Logic::And) => "both of rows %a and %b",
        Infix::Logic(Logic::Or) => "either of rows %a and %b",
        Infix::Logic(Logic::Xor) => "only one of rows %a and %b",
        Infix::Join => "join rows %a and %b",
        Infix::Product => "product of rows %a and %b",
        Infix::By => "elements of row %a in steps of row %b",
    }
}

fn measure(asked: Measure) -> &'static str {
    match asked {
        Measure::Length => "length of row %a",
        Measure::Rows => "number of rows of row %a",
        Measure::Columns => "number of columns of row %a",
        Measure::Reverse => "reverse row %a",
        Measure::Single => "vector of row %a alone",
    }
}

/// The template, where the number names a kind.
fn with_kind(number: u16, template: &'static str) -> Option<&'static str> {
    Kind::try_from(number).is_ok().then_some(template)
}

fn declaration(row: &Row) -> Option<&'static str> {
    let _typing = declared(row)?;
    if row.a == NO_VALUE {
        Some("declare %t with nulls")
    } else {
        Some("declare %t with row %a")
    }
}

fn expression(row: &Row) -> Option<&'static str> {
    match row.code {
        1 => with_kind(row.a, "literal %k %n"),
        2 => with_kind(row.a, "empty vector of %k"),
        3 => Some("value of variable %a"),
        4 => Some(prefix(Prefix::try_from(row.c).ok()?)),
        5 => Some(infix(Infix::try_from(row.c).ok()?)),
        6 => Some("interval from row %a to row %b"),
        7 => Some("stack row %b under row %a"),
        8 => Some("elements of row %a at row %b"),
        9 => Some("elements of row %a at rows %b and %c"),
        10 => Some(measure(Measure::try_from(row.c).ok()?)),
        11 => with_kind(row.c, "cast row %a to %K"),
        12 => Some("resize row %a to %r by %s"),
        13 => Some("stream state"),
        _ => None,
    }
}

fn block(code: u16) -> Option<&'static str> {
    match code {
        24 => Some("if row %a, else or end at row %b"),
        25 => Some("else, end at row %b"),
        26 => Some("loop, end at row %b"),
        27 => Some("each element of row %a, end at row %b"),
        28 => Some("test row %a"),
        29 => Some("break"),
        30 => Some("continue"),
        31 => Some("end of the block from row %b"),
        _ => None,
    }
}

fn statement(row: &Row) -> Option<&'static str> {
    match row.code {
        20 => declaration(row),
        21 => Some("assign row %b to variable %a"),
        22 => Some("store row %c in variable %a at row %b"),
        23 => Some("store row %d in variable %a at rows %b and %c"),
        32 => Some("print row %a"),
        33 => Some("read into variable %a"),
        34 => Some("return row %a"),
        _ => block(row.code),
    }
}

/// The template for a row, if its code has a meaning and the kinds and operators that it names exist.
pub(crate) fn template(row: &Row) -> Option<&'static str> {
    expression(row).or(statement(row))
}
