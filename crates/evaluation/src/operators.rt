//! Rows with an operator, by the operator: a closed list that rows name by number, so the match is the row's choice.
ghost use Rattle.std.specs.Prelude.{◌<◌};
ghost use Rattle.meaning.specs.Expressions.{by1, by2, prefixed, infixed, measured};
ghost use Rattle.tables.specs.Frames.{values, Makes};
ghost use Rattle.tables.specs.Lent.{Kept, Holds};

use expressions::builds::join_row;
use expressions::calculations::{calculate_row, compare_row, decide_row};
use expressions::copies::{reverse_row, single_row};
use expressions::integers::{columns_row, length_row, rows_row};
use expressions::prefixes::{negate_row, not_row};
use expressions::products::multiply_row;
use fault::Fault;
use instruction::{Infix, Measure, Prefix};
use meaning::Layout;
use selections::equalities::equate_row;
use selections::stepping::step_row;
use tables::{Tables, View};

/// A row with an operator before one value.
pub fn prefix_row(view: &View, op: Prefix, a: u16, tables: &mut Tables) -> Result<Layout, Fault>
    requires before { a < view.now.place.row }
    requires ample { Holds view.now.place tables.old }
    ensures made { Makes view.now.place (by1 view.now.place.width (values view.now tables.old) a (prefixed op)) tables.old result tables.new }
    ensures lent { Kept tables.old tables.new }
{
    match op {
        Prefix::Minus => negate_row(view, a, tables.integers),
        Prefix::Not => not_row(view, a, tables.booleans),
    }
}

/// A row with an operator between two values.
pub fn infix_row(
    view: &View,
    op: Infix,
    a: u16,
    b: u16,
    tables: &mut Tables,
) -> Result<Layout, Fault>
    requires wide { 1 < view.now.place.width }
    requires left { a < view.now.place.row }
    requires right { b < view.now.place.row }
    requires ample { Holds view.now.place tables.old }
    ensures made { Makes view.now.place (by2 view.now.place.width (values view.now tables.old) a b (infixed op)) tables.old result tables.new }
    ensures lent { Kept tables.old tables.new }
{
    match op {
        Infix::Arithmetic(op) => calculate_row(view, op, a, b, tables.integers),
        Infix::Order(op) => {
            let integers = &mut *tables.integers;
            let booleans = &mut *tables.booleans;
            compare_row(view, op, a, b, integers, booleans)
        }
        Infix::Logic(op) => decide_row(view, op, a, b, tables.booleans),
        Infix::Equality(op) => equate_row(view, op, a, b, tables),
        Infix::Join => join_row(view, a, b, tables),
        Infix::Product => multiply_row(view, a, b, tables.integers),
        Infix::By => step_row(view, a, b, tables),
    }
}

/// A row that asks for a size, or makes a vector of a vector or scalar.
pub fn measure_row(
    view: &View,
    asked: Measure,
    a: u16,
    tables: &mut Tables,
) -> Result<Layout, Fault>
    requires before { a < view.now.place.row }
    requires ample { Holds view.now.place tables.old }
    ensures made { Makes view.now.place (by1 view.now.place.width (values view.now tables.old) a (measured asked)) tables.old result tables.new }
    ensures lent { Kept tables.old tables.new }
{
    match asked {
        Measure::Length => length_row(view, a, tables.integers),
        Measure::Rows => rows_row(view, a, tables.integers),
        Measure::Columns => columns_row(view, a, tables.integers),
        Measure::Reverse => reverse_row(view, a, tables),
        Measure::Single => single_row(view, a, tables),
    }
}
