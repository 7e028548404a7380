//! Reading a row's numbers: the rule that looks at one row alone.
ghost use Rattle.std.specs.Prelude.{◌≡◌, Some};
ghost use Rattle.instruction.specs.Forms.{literal_fits, start_of, literal as literal_form, declared_by, expression_of, statement_of, form};

use crate::fields::{fields_of, is_plain};
use crate::instructions::{Change, Control, Expression, Infix, Instruction, Measure, Prefix};
use sheet::Row;
use types::sizes::size_from;
use types::{Kind, Shape, Typing};

fn is_literal(kind: Kind, n: i32) -> bool
    ensures { result ≡ literal_fits kind n }
{
    match kind {
        Kind::Boolean => (0..=1).contains(&n),
        Kind::Character => i8::try_from(n).is_ok(),
        Kind::Integer => true,
    }
}

fn literal(kind: Kind, n: i32) -> Option<Expression>
    ensures { result ≡ literal_form (Some kind) n }
{
    is_literal(kind, n).then_some(Expression::Literal(kind, n))
}

/// The row that a declaration names, if it names one: with none the variable has nulls.
fn start_of(a: u16) -> Option<u16>
    ensures { result ≡ start_of a }
{
    // the number of an open size, for no row: the file's layout uses it twice, and the two need not stay alike
    match a {
        65535 => None,
        _ => Some(a),
    }
}

fn declare(x: Row) -> Option<Instruction>
    ensures { result ≡ declared_by x }
{
    let typing = Typing {
        kind: Kind::try_from(x.c).ok()?,
        shape: Shape::try_from(x.b).ok()?,
        r: size_from(x.r),
        s: size_from(x.s),
    };
    typing.has_fixed_sizes().then_some(Instruction::Change(Change::Declare(typing, start_of(x.a))))
}

// By number, as below: the file's layout gives a row's code as one.
fn expression_of(x: Row) -> Option<Expression>
    ensures { result ≡ expression_of x }
{
    // the codes are numbers of the file's own layout
    match x.code {
        1 => literal(Kind::try_from(x.a).ok()?, x.n),
        2 => Some(Expression::Empty(Kind::try_from(x.a).ok()?)),
        3 => Some(Expression::Variable(x.a)),
        4 => Some(Expression::Prefix(Prefix::try_from(x.c).ok()?, x.a)),
        5 => Some(Expression::Infix(Infix::try_from(x.c).ok()?, x.a, x.b)),
        6 => Some(Expression::Interval(x.a, x.b)),
        7 => Some(Expression::Stack(x.a, x.b)),
        8 => Some(Expression::Pick(x.a, x.b)),
        9 => Some(Expression::PickTwo(x.a, x.b, x.c)),
        10 => Some(Expression::Measure(Measure::try_from(x.c).ok()?, x.a)),
        11 => Some(Expression::Cast(Kind::try_from(x.c).ok()?, x.a)),
        12 => Some(Expression::Resize(x.a, size_from(x.r), size_from(x.s))),
        13 => Some(Expression::State),
        _ => None,
    }
}

// By number too, for the same reason.
fn statement_of(x: Row) -> Option<Instruction>
    ensures { result ≡ statement_of x }
{
    match x.code {
        20 => declare(x),
        21 => Some(Instruction::Change(Change::Assign(x.a, x.b))),
        22 => Some(Instruction::Change(Change::Store(x.a, x.b, x.c))),
        23 => Some(Instruction::Change(Change::StoreTwo(x.a, x.b, x.c, x.d))),
        24 => Some(Instruction::Control(Control::If(x.a, x.b))),
        25 => Some(Instruction::Control(Control::Else(x.b))),
        26 => Some(Instruction::Control(Control::Loop(x.b))),
        27 => Some(Instruction::Control(Control::Each(x.a, x.b))),
        28 => Some(Instruction::Control(Control::Test(x.a))),
        29 => Some(Instruction::Control(Control::Break)),
        30 => Some(Instruction::Control(Control::Continue)),
        31 => Some(Instruction::Control(Control::End(x.b))),
        32 => Some(Instruction::Change(Change::Print(x.a))),
        33 => Some(Instruction::Change(Change::Read(x.a))),
        34 => Some(Instruction::Change(Change::Return(x.a))),
        _ => None,
    }
}

/// What a row says, or nothing where its own fields break a rule.
pub fn decode(x: Row) -> Option<Instruction>
    ensures { result ≡ form x }
{
    if !is_plain(fields_of(x.code), x) {
        return None;
    }
    if x.code <= 13 {
        expression_of(x).map(Instruction::Expression)
    } else {
        statement_of(x)
    }
}
