//! Expression rows by what they say.
ghost use Rattle.std.specs.Prelude.{◌<◌};
ghost use Rattle.laws.specs.Reads.{make_reads, AllUnder};
ghost use Rattle.meaning.specs.Expressions.{evaluated};
ghost use Rattle.tables.specs.Frames.{values, Makes};
ghost use Rattle.tables.specs.Lent.{Kept, Holds};

use crate::operators::{infix_row, measure_row, prefix_row};
use expressions::builds::{cast_row, resize_row, stack_row};
use expressions::constants::{empty_row, literal_row};
use expressions::copies::variable_row;
use expressions::integers::{interval_row, state_row};
use fault::Fault;
use instruction::Expression;
use meaning::Layout;
use selections::crossing::pick_two_row;
use selections::indexing::pick_row;
use source::StreamState;
use tables::{Tables, View};

/// Writes the value of an expression row into the row's own cells, and tells its layout; or tells the row's fault, and
/// those cells are free.
pub fn evaluate(
    view: &View,
    expression: Expression,
    state: StreamState,
    tables: &mut Tables,
) -> Result<Layout, Fault>
    requires wide { 1 < view.now.place.width }
    requires reads { AllUnder view.now.place.row (make_reads expression) }
    requires ample { Holds view.now.place tables.old }
    ensures made { Makes view.now.place (evaluated view.now.place.width (values view.now tables.old) state expression) tables.old result tables.new }
    ensures lent { Kept tables.old tables.new }
{
    let place = view.place;
    // a closed list that rows name by number: the match is what a row says
    match expression {
        Expression::Literal(kind, n) => literal_row(place, kind, n, tables),
        Expression::Empty(kind) => empty_row(place, kind),
        Expression::Variable(v) => variable_row(view, v, tables),
        Expression::Prefix(op, a) => prefix_row(view, op, a, tables),
        Expression::Infix(op, a, b) => infix_row(view, op, a, b, tables),
        Expression::Interval(a, b) => interval_row(view, a, b, tables.integers),
        Expression::Stack(a, b) => stack_row(view, a, b, tables),
        Expression::Pick(a, b) => pick_row(view, a, b, tables),
        Expression::PickTwo(a, b, c) => pick_two_row(view, a, b, c, tables),
        Expression::Measure(asked, a) => measure_row(view, asked, a, tables),
        Expression::Cast(kind, a) => cast_row(view, kind, a, tables),
        Expression::Resize(a, r, s) => resize_row(view, a, r, s, tables),
        Expression::State => state_row(place, state, tables.integers),
    }
}
