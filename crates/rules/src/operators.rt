//! What operators take, and the type of what they give.
ghost use Rattle.std.specs.Prelude.{◌≡◌, ◌&&◌, ◌||◌};
ghost use Rattle.types.specs.declared.kinds.Kind.TheVariants.{Integer};
ghost use Rattle.types.specs.declared.kinds.Shape.TheVariants.{Vector, Matrix};
ghost use Rattle.types.specs.Typings.{is, of};
ghost use Rattle.rules.specs.Rules.{prefix_rule, elementwise, equality_rule, joins, join_rule, dot_rule, matrix_rule, product_rule, by_rule, infix_rule};

use crate::refusal::Refusal;
use crate::sizing::{Judged, need, sized};
use instruction::{Infix, Prefix};
use types::sizes::{agree, plus};
use types::{Kind, Shape, Typing};

/// Minus of integers, not of booleans.
pub fn prefix(operation: Prefix, t: Typing) -> Judged
    ensures { result ≡ prefix_rule operation t }
{
    let kind = match operation {
        Prefix::Minus => Kind::Integer,
        Prefix::Not => Kind::Boolean,
    };
    need(t.is_of(kind) && t.is_flat(), Refusal::Unfit)?;
    Ok(Some(t))
}

fn work_each(width: u16, from: Kind, to: Kind, t: Typing, u: Typing) -> Judged
    ensures { result ≡ elementwise width from to t u }
{
    need(t.is_of(from) && u.is_of(from) && t.pairs(u), Refusal::Unfit)?;
    need(t.matches_spread(u), Refusal::Sizes)?;
    sized(width, t.spread(u, to))
}

fn equality(t: Typing, u: Typing) -> Judged
    ensures { result ≡ equality_rule t u }
{
    let paired = t.pairs(u) || t.is(Shape::Interval) && u.is(Shape::Interval);
    need(u.is_of(t.kind) && paired, Refusal::Unfit)?;
    need(t.matches_spread(u), Refusal::Sizes)?;
    Ok(Some(Typing::scalar(Kind::Boolean)))
}

fn is_joined(t: Typing) -> bool
    ensures { result ≡ joins t }
{
    t.is(Shape::Scalar) || t.is(Shape::Vector)
}

fn join(width: u16, t: Typing, u: Typing) -> Judged
    ensures { result ≡ join_rule width t u }
{
    need(
        u.is_of(t.kind) && is_joined(t) && is_joined(u),
        Refusal::Unfit,
    )?;
    let s = plus(t.s, u.s).ok_or(Refusal::Sizes)?;
    sized(width, Typing::vector(t.kind, s))
}

fn dot(t: Typing, u: Typing) -> Judged
    ensures { result ≡ dot_rule t u }
{
    need(agree(t.s, u.s), Refusal::Sizes)?;
    Ok(Some(Typing::scalar(Kind::Integer)))
}

fn matrix_product(width: u16, t: Typing, u: Typing) -> Judged
    ensures { result ≡ matrix_rule width t u }
{
    need(agree(t.s, u.r), Refusal::Sizes)?;
    sized(width, Typing::matrix(Kind::Integer, t.r, u.s))
}

fn is_product(t: Typing, u: Typing) -> bool
    ensures { result ≡ (of Integer t && (of Integer u && ((is Vector t && is Vector u) || (is Matrix t && is Matrix u)))) }
{
    t.is_of(Kind::Integer)
        && u.is_of(Kind::Integer)
        && (t.is(Shape::Vector) && u.is(Shape::Vector)
            || t.is(Shape::Matrix) && u.is(Shape::Matrix))
}

fn product(width: u16, t: Typing, u: Typing) -> Judged
    ensures { result ≡ product_rule width t u }
{
    need(is_product(t, u), Refusal::Unfit)?;
    if t.is(Shape::Vector) {
        dot(t, u)
    } else {
        matrix_product(width, t, u)
    }
}

fn by(t: Typing, u: Typing) -> Judged
    ensures { result ≡ by_rule t u }
{
    let listed = t.is(Shape::Vector) || t.is(Shape::Interval);
    need(listed && u.is_alone(Kind::Integer), Refusal::Unfit)?;
    Ok(Some(Typing::vector(t.kind, None)))
}

/// An operator on two values.
pub fn infix(width: u16, operation: Infix, t: Typing, u: Typing) -> Judged
    ensures { result ≡ infix_rule width operation t u }
{
    // a closed list that rows name by number: the match gives each operator its rule
    match operation {
        Infix::Arithmetic(_) => work_each(width, Kind::Integer, Kind::Integer, t, u),
        Infix::Order(_) => work_each(width, Kind::Integer, Kind::Boolean, t, u),
        Infix::Logic(_) => work_each(width, Kind::Boolean, Kind::Boolean, t, u),
        Infix::Equality(_) => equality(t, u),
        Infix::Join => join(width, t, u),
        Infix::Product => product(width, t, u),
        Infix::By => by(t, u),
    }
}
