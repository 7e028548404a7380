//! The rule of operands: each is an expression row directly before.
ghost use Rattle.std.specs.Prelude.{◌≡◌};
ghost use Rattle.checker.specs.Blocks.{make_operands, change_operands, turn_operands, operands, all};
ghost use Rattle.checker.specs.Judge.{between};

use crate::position::Position;
use instruction::{Change, Control, Expression, Instruction};

impl Position<'_> {
    /// Whether row a is an expression row directly before.
    fn is_near(&self, a: u16) -> bool
        ensures { result ≡ between self.now.start self.now.row a }
    {
        (self.start..self.row).contains(&usize::from(a))
    }

    fn is_expression_placed(&self, e: Expression) -> bool
        ensures { result ≡ all (between self.now.start self.now.row) (make_operands e) }
    {
        match e {
            Expression::Literal(..)
            | Expression::Empty(_)
            | Expression::Variable(_)
            | Expression::State => true,
            Expression::Prefix(_, a)
            | Expression::Measure(_, a)
            | Expression::Cast(_, a)
            | Expression::Resize(a, _, _) => self.is_near(a),
            Expression::Infix(_, a, b)
            | Expression::Interval(a, b)
            | Expression::Stack(a, b)
            | Expression::Pick(a, b) => self.is_near(a) && self.is_near(b),
            Expression::PickTwo(a, b, c) => {
                self.is_near(a) && self.is_near(b) && self.is_near(c)
            }
        }
    }

    fn is_change_placed(&self, s: Change) -> bool
        ensures { result ≡ all (between self.now.start self.now.row) (change_operands s) }
    {
        match s {
            Change::Declare(_, None) | Change::Read(_) => true,
            Change::Declare(_, Some(a))
            | Change::Assign(_, a)
            | Change::Print(a)
            | Change::Return(a) => self.is_near(a),
            Change::Store(_, b, c) => self.is_near(b) && self.is_near(c),
            Change::StoreTwo(_, b, c, d) => {
                self.is_near(b) && self.is_near(c) && self.is_near(d)
            }
        }
    }

    fn is_control_placed(&self, t: Control) -> bool
        ensures { result ≡ all (between self.now.start self.now.row) (turn_operands t) }
    {
        match t {
            Control::If(a, _) | Control::Each(a, _) | Control::Test(a) => self.is_near(a),
            Control::Else(_)
            | Control::Loop(_)
            | Control::Break
            | Control::Continue
            | Control::End(_) => true,
        }
    }

    /// Whether each operand is an expression row directly before.
    pub fn is_placed(&self, i: Instruction) -> bool
        ensures { result ≡ all (between self.now.start self.now.row) (operands i) }
    {
        match i {
            Instruction::Expression(e) => self.is_expression_placed(e),
            Instruction::Change(s) => self.is_change_placed(s),
            Instruction::Control(t) => self.is_control_placed(t),
        }
    }
}
