//! Operands of what works cell by cell: a run of cells, or one cell for every element.
ghost use Rattle.std.specs.Prelude.{◌≡◌, ◌+◌, ◌^◌, ◌<◌};
ghost use Rattle.element.specs.Operands.{place_of};

/// The cells that hold the elements of an operand.
#[derive(Clone, Copy, PartialEq, Eq, Debug)]
pub enum Operand {
    /// The cells from this place on, one for each element.
    Run(usize),
    /// The scalar in this cell, for every element.
    Scalar(usize),
}

impl Operand {
    /// The place of the cell for element k, which counts from 0.
    pub fn place(self, k: usize) -> usize
        requires { place_of self k < 2 ^ 64 }
        ensures { result ≡ place_of self k }
    {
        match self {
            Operand::Run(at) => at + k,
            Operand::Scalar(at) => at,
        }
    }
}
