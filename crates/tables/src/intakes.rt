//! What the reads of a sheet have come to.

use source::StreamState;

/// How many bytes the reads took, and how the last one went.
// The host's interface is the trait of sources: a `&mut S` in here would make each row say that it is still the same source.
#[derive(Clone, Copy, Debug, PartialEq, Eq)]
pub struct Intake {
    pub taken: u32,
    pub stream: StreamState,
}
