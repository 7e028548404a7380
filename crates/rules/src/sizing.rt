//! What every rule rests on: a fact that must hold, and the width that holds a value.
ghost use Rattle.std.specs.Prelude.{◌≡◌, true, false, MatchResult};
ghost use Rattle.rules.specs.Rules.{sized as sized_rule};

use crate::refusal::Refusal;
use types::Typing;

/// What is noted of a row: the type of the value or the variable that it makes, if it makes one.
pub type Judged = Result<Option<Typing>, Refusal>;

/// The refusal, where the fact does not hold.
pub fn need<E: Drop>(holds: bool, refusal: E) -> Result<(), E>
    ensures { MatchResult result (λ _. holds ≡ true) (λ e. (holds ≡ false) × (e ≡ refusal)) }
{
    if holds { Ok(()) } else { Err(refusal) }
}

/// The type, if nothing that is known of its sizes is beyond the width.
pub fn sized(width: u16, t: Typing) -> Judged
    ensures { result ≡ sized_rule width t }
{
    need(t.has_room(width), Refusal::Sizes)?;
    Ok(Some(t))
}
