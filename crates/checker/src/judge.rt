//! What check says of a row.
ghost use Rattle.std.specs.Prelude.{◌≡◌};
ghost use Rattle.checker.specs.Blocks.{typing_at};
ghost use Rattle.checker.specs.Judge.{between, ruled, judged_as};
ghost use Rattle.checker.specs.Stack.{open_rows};
ghost use Rattle.instruction.specs.Forms.{form};
ghost use Rattle.rules.specs.Rules.{make_rule, change_rule, turn_rule, typed};

use crate::line::Line;
use crate::position::Position;
use instruction::{Change, Control, Expression, Instruction, decode};
use rules::{Judged, Refusal, expressions, need, operators, statements};
use sheet::Row;
use types::{Kind, Shape, Typing};

// Each match goes over a closed list of rows: it is what a row says.
impl Position<'_> {
    fn judge_expression(&self, e: Expression) -> Judged
        ensures { result ≡ make_rule self.now.head.width self.now.head.result (typing_at self.now.lines.now) e }
    {
        let width = self.head.width;
        let at = |i| self.typing_at(i);
        match e {
            Expression::Literal(k, _) => Ok(Some(Typing::scalar(k))),
            Expression::Empty(k) => Ok(Some(Typing::vector(k, Some(0)))),
            Expression::Variable(v) => Ok(Some(at(v))),
            Expression::Prefix(o, a) => operators::prefix(o, at(a)),
            Expression::Infix(o, a, b) => operators::infix(width, o, at(a), at(b)),
            Expression::Interval(a, b) => expressions::interval(at(a), at(b)),
            Expression::Stack(a, b) => expressions::stack(width, at(a), at(b)),
            Expression::Pick(a, b) => expressions::pick(at(a), at(b)),
            Expression::PickTwo(a, b, c) => expressions::pick_two(width, at(a), at(b), at(c)),
            Expression::Measure(m, a) => expressions::measure(m, at(a)),
            Expression::Cast(k, a) => expressions::cast(k, at(a)),
            Expression::Resize(a, r, s) => expressions::resize(width, r, s, at(a)),
            Expression::State => Ok(Some(Typing::scalar(Kind::Integer))),
        }
    }

    fn judge_change(&self, s: Change) -> Judged
        ensures { result ≡ change_rule self.now.head.width self.now.head.result (typing_at self.now.lines.now) s }
    {
        let width = self.head.width;
        let at = |i| self.typing_at(i);
        match s {
            Change::Declare(t, None) => statements::declare_nulls(width, t),
            Change::Declare(t, Some(a)) => statements::declare(width, t, at(a)),
            Change::Assign(v, a) => statements::assign(at(v), at(a)),
            Change::Store(v, b, c) => statements::store(at(v), at(b), at(c)),
            Change::StoreTwo(v, b, c, d) => statements::store_two(at(v), at(b), at(c), at(d)),
            Change::Print(a) => {
                need(at(a).is_flat(), Refusal::Unfit)?;
                Ok(None)
            }
            Change::Read(v) => {
                need(at(v).is(Shape::Scalar), Refusal::Unfit)?;
                Ok(None)
            }
            Change::Return(a) => statements::give_back(self.head.result, at(a)),
        }
    }

    fn judge_control(&self, t: Control) -> Judged
        ensures { result ≡ turn_rule self.now.head.width self.now.head.result (typing_at self.now.lines.now) t }
    {
        match t {
            Control::If(a, _) | Control::Test(a) => statements::condition(self.typing_at(a)),
            Control::Each(a, _) => statements::each(self.typing_at(a)),
            Control::Else(_)
            | Control::Loop(_)
            | Control::Break
            | Control::Continue
            | Control::End(_) => Ok(None),
        }
    }

    /// Kinds, shapes and sizes of any row.
    fn judge_type(&self, i: Instruction) -> Judged
        ensures { result ≡ typed self.now.head.width self.now.head.result (typing_at self.now.lines.now) i }
    {
        match i {
            Instruction::Expression(e) => self.judge_expression(e),
            Instruction::Change(s) => self.judge_change(s),
            Instruction::Control(t) => self.judge_control(t),
        }
    }

    /// The rules in their order: operands, blocks, scope, then kinds, shapes and sizes.
    fn judge_instruction(&self, i: Instruction) -> Judged
        ensures { result ≡ ruled self.now.head.width self.now.head.result self.now.is_last self.now.lines.now self.now.row (between self.now.start self.now.row) (open_rows self.now.blocks.now) i }
    {
        need(self.is_placed(i), Refusal::Operand)?;
        need(self.is_nested(i), Refusal::Block)?;
        need(self.is_scoped(i), Refusal::Scope)?;
        self.judge_type(i)
    }

    /// The line of the row, or the first rule that it breaks: from its own fields and the lines before it.
    pub fn judge(&self, x: Row) -> Result<Line, Refusal>
        ensures { result ≡ judged_as self.now.head.width self.now.head.result self.now.is_last self.now.lines.now self.now.row (between self.now.start self.now.row) (open_rows self.now.blocks.now) (form x) }
    {
        let instruction = decode(x).ok_or(Refusal::Form)?;
        let typing = self.judge_instruction(instruction)?;
        Ok(Line {
            instruction,
            typing,
            block: self.blocks.innermost(),
            target: self.target_of(instruction),
        })
    }
}
