//! Rows that say whether two values are equal.
ghost use Rattle.std.specs.Prelude.{◌≡◌, ◌*◌, ◌<◌, true, [], ◌∷◌, length};
ghost use Rattle.element.specs.Cells.{put};
ghost use Rattle.meaning.specs.Expressions.{by2, equated, says as says_of};
ghost use Rattle.meaning.specs.Values.{lawful};
ghost use Rattle.selections.specs.Equalities.{equates, equate_guard, same_at};
ghost use Rattle.tables.specs.Frames.{values, Makes};
ghost use Rattle.tables.specs.Lent.{seen, Kept, Holds, Shows};

use fault::Fault;
use instruction::Equality;
use meaning::{Layout, Place};
use tables::{Shared, Tables, View};
use types::{Kind, Shape};

/// Whether values of these layouts may be compared: of one kind, element by element, or two intervals.
fn can_equate(x: Layout, y: Layout) -> bool
    ensures { result ≡ equates x y }
{
    let (t, u) = (x.typing(), y.typing());
    u.is_of(x.kind) && (t.pairs(u) || t.is(Shape::Interval) && u.is(Shape::Interval))
}

fn guard_equate(place: Place, x: Layout, y: Layout) -> Result<Layout, Fault>
    ensures { result ≡ equate_guard place x y }
{
    place.guard(
        can_equate(x, y),
        true,
        None,
        Layout::scalar(Kind::Boolean),
        x.matches_spread(y),
    )
}

/// Whether the values of layouts x at row a and y at row b have the same elements, a scalar spread over the other.
fn are_equal(place: Place, a: u16, b: u16, x: Layout, y: Layout, tables: &Shared) -> bool
    requires wide { 1 < place.width }
    requires left { a < place.row }
    requires right { b < place.row }
    requires left_lawful { lawful place.width x ≡ true }
    requires right_lawful { lawful place.width y ≡ true }
    requires ample { Shows place tables.now }
    ensures { result ≡ same_at (seen tables.now) x y (a * place.width) (b * place.width) }
{
    let left = place.start_of(a);
    let right = place.start_of(b);
    let many = x.area(place.width);
    if y.is(Shape::Scalar) {
        tables.equal_throughout(x.kind, left, many, right)
    } else if x.is(Shape::Scalar) {
        tables.equal_throughout(x.kind, right, y.area(place.width), left)
    } else {
        tables.equal(x.kind, left, right, many)
    }
}

/// What an operator says of values that are equal, or are not.
fn says(op: Equality, equal: bool) -> bool
    ensures { result ≡ says_of op equal }
{
    match op {
        Equality::Equal => equal,
        Equality::Unequal => !equal,
    }
}

/// Writes a boolean into the cell `to`.
fn write_truth(booleans: &mut [bool], truth: bool, to: usize)
    requires { to < length booleans.old }
    ensures { booleans.new ≡ put booleans.old to (truth ∷ []) }
{
    booleans[to] = truth;
}

/// Whether two values are equal, or unequal: one boolean.
pub fn equate_row(
    view: &View,
    op: Equality,
    a: u16,
    b: u16,
    tables: &mut Tables,
) -> Result<Layout, Fault>
    requires wide { 1 < view.now.place.width }
    requires left { a < view.now.place.row }
    requires right { b < view.now.place.row }
    requires ample { Holds view.now.place tables.old }
    ensures made { Makes view.now.place (by2 view.now.place.width (values view.now tables.old) a b (equated op)) tables.old result tables.new }
    ensures lent { Kept tables.old tables.new }
{
    let place = view.place;
    let x = view.operand(a)?;
    let y = view.operand(b)?;
    let form = guard_equate(place, x, y)?;
    let same = are_equal(place, a, b, x, y, &tables.shared());
    write_truth(tables.booleans, says(op, same), place.start_of(place.row));
    Ok(form)
}
