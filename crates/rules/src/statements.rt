//! What statements take, and the type of the variable that they make.
ghost use Rattle.std.specs.Prelude.{◌≡◌, ◌&&◌, ◌||◌};
ghost use Rattle.rules.specs.Rules.{takes, begins, filled, nulls_rule, declare_rule, assign_rule, store_rule, store_two_rule, return_rule, each_rule, condition_rule};

use crate::refusal::Refusal;
use crate::sizing::{Judged, need, sized};
use types::sizes::{agree, fits_in};
use types::{Kind, Shape, Typing};

/// Whether a variable of the first type may be given a value of the second: of its kind and shape, a scalar to spread, or an interval for a vector.
pub fn can_take(t: Typing, u: Typing) -> bool
    ensures { result ≡ takes t u }
{
    u.is_of(t.kind)
        && (t.shape == u.shape
            || u.is(Shape::Scalar) && (t.is(Shape::Vector) || t.is(Shape::Matrix))
            || u.is(Shape::Interval) && t.is(Shape::Vector))
}

fn can_begin(t: Typing, u: Typing) -> bool
    ensures { result ≡ begins t u }
{
    if t.shape == u.shape {
        fits_in(u.r, t.r) && fits_in(u.s, t.s)
    } else {
        !u.is(Shape::Scalar) || t.r.is_some() && t.s.is_some()
    }
}

fn fill(t: Typing, u: Typing) -> Typing
    ensures { result ≡ filled t u }
{
    if t.shape == u.shape {
        Typing {
            r: t.r.or(u.r),
            s: t.s.or(u.s),
            ..t
        }
    } else {
        t
    }
}

/// A variable of nulls, whose sizes must be written.
pub fn declare_nulls(width: u16, t: Typing) -> Judged
    ensures { result ≡ nulls_rule width t }
{
    need(t.r.is_some() && t.s.is_some(), Refusal::Sizes)?;
    sized(width, t)
}

/// A variable with a value: of its type, a scalar to spread, or an interval for a vector.
pub fn declare(width: u16, t: Typing, u: Typing) -> Judged
    ensures { result ≡ declare_rule width t u }
{
    need(can_take(t, u), Refusal::Unfit)?;
    need(can_begin(t, u), Refusal::Sizes)?;
    sized(width, fill(t, u))
}

/// A variable's new value: as for a declaration, but sizes are equal.
pub fn assign(t: Typing, u: Typing) -> Judged
    ensures { result ≡ assign_rule t u }
{
    need(can_take(t, u), Refusal::Unfit)?;
    need(t.shape != u.shape || t.matches(u), Refusal::Sizes)?;
    Ok(None)
}

/// Elements into a vector: at one place a scalar, at several a scalar or an equally long vector.
pub fn store(t: Typing, u: Typing, v: Typing) -> Judged
    ensures { result ≡ store_rule t u v }
{
    let held = v.is(Shape::Scalar) || v.is(Shape::Vector) && !u.is(Shape::Scalar);
    need(
        t.is(Shape::Vector) && u.is_index() && v.is_of(t.kind) && held,
        Refusal::Unfit,
    )?;
    need(v.is(Shape::Scalar) || agree(u.span(), v.s), Refusal::Sizes)?;
    Ok(None)
}

/// A scalar into a matrix.
pub fn store_two(t: Typing, u: Typing, v: Typing, x: Typing) -> Judged
    ensures { result ≡ store_two_rule t u v x }
{
    let placed = u.is_alone(Kind::Integer) && v.is_alone(Kind::Integer);
    need(
        t.is(Shape::Matrix) && placed && x.is_alone(t.kind),
        Refusal::Unfit,
    )?;
    Ok(None)
}

/// A return of the head's type.
pub fn give_back(head: Typing, t: Typing) -> Judged
    ensures { result ≡ return_rule head t }
{
    need(t.is_of(head.kind) && head.shape == t.shape, Refusal::Unfit)?;
    need(head.matches(t), Refusal::Sizes)?;
    Ok(None)
}

/// Over a vector or an interval: the variable is a scalar.
pub fn each(t: Typing) -> Judged
    ensures { result ≡ each_rule t }
{
    need(t.is(Shape::Vector) || t.is(Shape::Interval), Refusal::Unfit)?;
    Ok(Some(Typing::scalar(t.kind)))
}

/// A boolean scalar.
pub fn condition(t: Typing) -> Judged
    ensures { result ≡ condition_rule t }
{
    need(t.is_alone(Kind::Boolean), Refusal::Unfit)?;
    Ok(None)
}
