//! What follows a worked row.

/// Where a sheet goes on once a row is worked.
#[derive(Clone, Copy, Debug, PartialEq, Eq)]
pub enum After {
    /// At this row.
    Row(usize),
    /// Nowhere: the row returned its value.
    Return,
    /// At the same row: it prints more than the output has room for.
    Wait,
}
