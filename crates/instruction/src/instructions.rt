//! What a row says, with its numbers read. A `u16` names a row.
use arithmetic::integers::Arithmetic;
use arithmetic::truths::{Logic, Order};
use types::{Kind, Size, Typing};

/// An operation on one value. Each works on its own kind.
#[derive(Clone, Copy, Debug, PartialEq, Eq)]
pub enum Prefix {
    /// The minus of integers.
    Minus,
    /// The negation of booleans.
    Not,
}

/// Whether all elements are equal, or not.
#[derive(Clone, Copy, Debug, PartialEq, Eq)]
pub enum Equality {
    Equal,
    Unequal,
}

/// An operation on two values, by its family.
#[derive(Clone, Copy, Debug, PartialEq, Eq)]
pub enum Infix {
    Arithmetic(Arithmetic),
    Order(Order),
    Logic(Logic),
    Equality(Equality),
    /// One vector after the other.
    Join,
    /// The dot product of vectors, or the matrix product.
    Product,
    /// The first element and every n-th after it.
    By,
}

/// What is asked of the shape of a value, or made of it.
#[derive(Clone, Copy, Debug, PartialEq, Eq)]
pub enum Measure {
    Length,
    Rows,
    Columns,
    Reverse,
    /// The vector of one scalar.
    Single,
}

/// A row that makes a value.
#[derive(Clone, Copy, Debug, PartialEq, Eq)]
pub enum Expression {
    Literal(Kind, i32),
    Empty(Kind),
    Variable(u16),
    Prefix(Prefix, u16),
    Infix(Infix, u16, u16),
    Interval(u16, u16),
    /// The rows of the first, and the second under them.
    Stack(u16, u16),
    /// The elements of a vector at indices.
    Pick(u16, u16),
    /// The elements of a matrix at indices of rows and of columns.
    PickTwo(u16, u16, u16),
    Measure(Measure, u16),
    Cast(Kind, u16),
    /// Padded with nulls or cut to these sizes.
    Resize(u16, Size, Size),
    /// How the last read went.
    State,
}

/// A row that changes a variable, prints, reads or returns. The variable comes first.
#[derive(Clone, Copy, Debug, PartialEq, Eq)]
pub enum Change {
    /// A variable of this type, with the value of a row, or with nulls.
    Declare(Typing, Option<u16>),
    Assign(u16, u16),
    /// Into a vector: at the indices of a row, the elements of a row.
    Store(u16, u16, u16),
    /// Into a matrix: at a row and a column, a scalar.
    StoreTwo(u16, u16, u16, u16),
    Print(u16),
    Read(u16),
    Return(u16),
}

/// A row that decides which row is next. An opener names the row that closes its block, last; an end its opener.
#[derive(Clone, Copy, Debug, PartialEq, Eq)]
pub enum Control {
    If(u16, u16),
    Else(u16),
    Loop(u16),
    Each(u16, u16),
    Test(u16),
    Break,
    Continue,
    End(u16),
}

/// What a row says.
#[derive(Clone, Copy, Debug, PartialEq, Eq)]
pub enum Instruction {
    Expression(Expression),
    Change(Change),
    Control(Control),
}
