//! Worked examples, as a theorem.
ghost use Rattle.meaning.specs.Examples.{Examples};

/// The worked examples hold of the definitions that the rows are proved to keep.
pub fn worked_examples()
    ensures { Examples }
{}
