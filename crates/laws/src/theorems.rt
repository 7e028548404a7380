//! The laws, each as the contract of a function.
ghost use Rattle.laws.specs.Accepted.{AcceptedSafe};
ghost use Rattle.laws.specs.Keeps.{RowsSafe};
ghost use Rattle.laws.specs.Laws.{Effects, Wholes};

/// What each effect makes of the values that rows hold: the row's own, and every other.
pub fn effects_stand()
    ensures { Effects }
{}

/// A row that gives a value gives as many elements as its layout says, and so does each value that a row holds.
pub fn values_are_whole()
    ensures { Wholes }
{}

/// A checked row whose operands are as noted has a rule: it makes a value as noted, goes on, waits, returns, or meets a fault 20 to 26, and leaves every other row as it was.
pub fn checked_rows_are_safe()
    ensures { RowsSafe }
{}

/// The same of every row of a sheet that check accepts, in as much room as it has rows.
pub fn accepted_rows_are_safe()
    ensures { AcceptedSafe }
{}
