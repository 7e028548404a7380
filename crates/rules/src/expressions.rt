//! What the other expressions take, and the type of what they give.
ghost use Rattle.std.specs.Prelude.{◌≡◌, ◌&&◌, ◌||◌};
ghost use Rattle.rules.specs.Rules.{interval_rule, stack_rule, pick_rule, picked, pick_two_rule, measure_rule, cast_rule, resize_rule};

use crate::refusal::Refusal;
use crate::sizing::{Judged, need, sized};
use instruction::Measure;
use types::sizes::{larger, plus};
use types::{Kind, Shape, Size, Typing};

/// An interval between two integers.
pub fn interval(t: Typing, u: Typing) -> Judged
    ensures { result ≡ interval_rule t u }
{
    need(
        t.is_alone(Kind::Integer) && u.is_alone(Kind::Integer),
        Refusal::Unfit,
    )?;
    Ok(Some(Typing::interval()))
}

/// Rows, and a vector under them.
pub fn stack(width: u16, t: Typing, u: Typing) -> Judged
    ensures { result ≡ stack_rule width t u }
{
    let rows = t.is(Shape::Vector) || t.is(Shape::Matrix);
    need(
        u.is_of(t.kind) && rows && u.is(Shape::Vector),
        Refusal::Unfit,
    )?;
    let r = plus(t.r, Some(1)).ok_or(Refusal::Sizes)?;
    sized(width, Typing::matrix(t.kind, r, larger(t.s, u.s)))
}

/// Elements of a vector at an index.
pub fn pick(t: Typing, u: Typing) -> Judged
    ensures { result ≡ pick_rule t u }
{
    need(t.is(Shape::Vector) && u.is_index(), Refusal::Unfit)?;
    Ok(Some(if u.is(Shape::Scalar) {
        Typing::scalar(t.kind)
    } else {
        Typing::vector(t.kind, u.span())
    }))
}

fn picked_type(kind: Kind, u: Typing, v: Typing) -> Typing
    ensures { result ≡ picked kind u v }
{
    match (u.is(Shape::Scalar), v.is(Shape::Scalar)) {
        (true, true) => Typing::scalar(kind),
        (true, false) => Typing::vector(kind, v.span()),
        (false, true) => Typing::vector(kind, u.span()),
        (false, false) => Typing::matrix(kind, u.span(), v.span()),
    }
}

/// Elements of a matrix at two indices: a scalar index drops a dimension.
pub fn pick_two(width: u16, t: Typing, u: Typing, v: Typing) -> Judged
    ensures { result ≡ pick_two_rule width t u v }
{
    need(
        t.is(Shape::Matrix) && u.is_index() && v.is_index(),
        Refusal::Unfit,
    )?;
    sized(width, picked_type(t.kind, u, v))
}

/// What is asked of a shape.
pub fn measure(asked: Measure, t: Typing) -> Judged
    ensures { result ≡ measure_rule asked t }
{
    let (shape, typing) = match asked {
        Measure::Length => (Shape::Vector, Typing::scalar(Kind::Integer)),
        Measure::Rows | Measure::Columns => (Shape::Matrix, Typing::scalar(Kind::Integer)),
        Measure::Reverse => (Shape::Vector, t),
        Measure::Single => (Shape::Scalar, Typing::vector(t.kind, Some(1))),
    };
    need(t.is(shape), Refusal::Unfit)?;
    Ok(Some(typing))
}

/// Another kind, element by element.
pub fn cast(kind: Kind, t: Typing) -> Judged
    ensures { result ≡ cast_rule kind t }
{
    need(t.is_flat(), Refusal::Unfit)?;
    Ok(Some(Typing { kind, ..t }))
}

/// Padded or cut to written sizes.
pub fn resize(width: u16, r: Size, s: Size, t: Typing) -> Judged
    ensures { result ≡ resize_rule width r s t }
{
    need(t.is(Shape::Vector) || t.is(Shape::Matrix), Refusal::Unfit)?;
    need(
        r.is_some() && s.is_some() && (t.is(Shape::Matrix) || r == Some(1)),
        Refusal::Sizes,
    )?;
    sized(width, Typing { r, s, ..t })
}
