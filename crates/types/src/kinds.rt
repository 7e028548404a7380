//! What a value may be: its kind and its shape; and the form of a sheet. Each has its number in a file.
ghost use Rattle.std.specs.Prelude.{◌≡◌};
ghost use Rattle.types.specs.Decoding.{Decodes};
ghost use Rattle.types.specs.Types.{kind_number, shape_number, form_number, kind_of, shape_of, form_of};

use crate::unknown::UnknownNumber;

/// What the elements of a value are.
#[derive(Clone, Copy, Debug, PartialEq, Eq, Hash)]
pub enum Kind {
    Boolean = 1,
    Character = 2,
    Integer = 3,
}

/// How the elements of a value are arranged. An interval is held as its two bounds.
#[derive(Clone, Copy, Debug, PartialEq, Eq, Hash)]
pub enum Shape {
    Scalar = 1,
    Vector = 2,
    Matrix = 3,
    Interval = 4,
}

/// Which set of rules a sheet is written for.
#[derive(Clone, Copy, Debug, PartialEq, Eq, Hash)]
pub enum Form {
    First = 1,
}

/// The number that stands for a kind in a file.
impl From<Kind> for u16 {
    ghost from_gives = { λ k n. n ≡ kind_number k };

    fn from(value: Kind) -> u16 {
        value as u16
    }
}

impl TryFrom<u16> for Kind {
    type Error = UnknownNumber;

    ghost try_from_gives = { Decodes kind_number kind_of };

    fn try_from(value: u16) -> Result<Kind, UnknownNumber> {
        match value {
            1 => Ok(Kind::Boolean),
            2 => Ok(Kind::Character),
            3 => Ok(Kind::Integer),
            _ => Err(UnknownNumber(value)),
        }
    }
}

/// The number that stands for a shape in a file.
impl From<Shape> for u16 {
    ghost from_gives = { λ k n. n ≡ shape_number k };

    fn from(value: Shape) -> u16 {
        value as u16
    }
}

impl TryFrom<u16> for Shape {
    type Error = UnknownNumber;

    ghost try_from_gives = { Decodes shape_number shape_of };

    fn try_from(value: u16) -> Result<Shape, UnknownNumber> {
        match value {
            1 => Ok(Shape::Scalar),
            2 => Ok(Shape::Vector),
            3 => Ok(Shape::Matrix),
            4 => Ok(Shape::Interval),
            _ => Err(UnknownNumber(value)),
        }
    }
}

/// The number that stands for a form in a file.
impl From<Form> for u16 {
    ghost from_gives = { λ k n. n ≡ form_number k };

    fn from(value: Form) -> u16 {
        value as u16
    }
}

impl TryFrom<u16> for Form {
    type Error = UnknownNumber;

    ghost try_from_gives = { Decodes form_number form_of };

    fn try_from(value: u16) -> Result<Form, UnknownNumber> {
        match value {
            1 => Ok(Form::First),
            _ => Err(UnknownNumber(value)),
        }
    }
}
