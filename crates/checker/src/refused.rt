//! What check gives back where it refuses.
use crate::room::Room;
use rules::Refusal;
use sheet::Draft;

/// The draft and the room that check was brought, the refusal, and the row that breaks the rule: row 0 where
/// the room is too short.
#[derive(Debug, Drop)]
pub struct Refused {
    pub draft: Draft,
    pub room: Room,
    pub refusal: Refusal,
    pub row: usize,
}
