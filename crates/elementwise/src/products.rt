//! Products of vectors and of matrices of integers.
ghost use Rattle.std.specs.Prelude.{◌≡◌, ℕ, ◌+◌, ◌*◌, ◌/◌, ◌%◌, ◌^◌, ◌<◌, ◌≤◌, length};
ghost use Rattle.std.specs.Result.{result_map_both};
ghost use Rattle.arithmetic.specs.Faults.{at_element};
ghost use Rattle.element.specs.Cells.{cells};
ghost use Rattle.elementwise.specs.Products.{with_product, dot, strided, products};
ghost use Rattle.elementwise.specs.Results.{collected, Wrote};

use crate::rules::{Rule, try_make};
use arithmetic::faults::{ArithmeticFault, ElementFault};
use arithmetic::integers::{Product, Sum};
use arithmetic::operators::Operator;

/// The sum with one more product.
fn add_product(sum: i32, x: i32, y: i32) -> Result<i32, ArithmeticFault>
    ensures { result ≡ with_product sum x y }
{
    let product = Product.apply(x, y)?;
    Sum.apply(sum, product)
}

/// The products of n cells from `a` on with n cells from `b` on, each `stride` behind the one before, added up from 0.
fn inner(
    source: &[i32],
    a: usize,
    b: usize,
    stride: usize,
    n: usize,
) -> Result<i32, ArithmeticFault>
    requires row { a + n ≤ length source.now }
    requires column { (k : ℕ) → k < n → b + k * stride < length source.now }
    ensures { result ≡ dot (cells source.now a n) (strided source.now b stride n) }
{
    let mut sum = 0;
    // the column by number: a matrix without rows has no place where a slice of it could begin
    for (k, x) in source[a..a + n].iter().enumerate() {
        sum = add_product(sum, *x, source[b + k * stride])?;
    }
    Ok(sum)
}

/// The dot product of the n integers from `a` on and those from `b` on: a scalar, so its fault is that of element 1.
pub fn dot_product(table: &[i32], a: usize, b: usize, n: usize) -> Result<i32, ElementFault>
    requires left { a + n ≤ length table.now }
    requires right { b + n ≤ length table.now }
    ensures { result ≡ result_map_both (λ z. z) (at_element 1) (dot (cells table.now a n) (cells table.now b n)) }
{
    let sum = inner(table, a, b, 1, n)?;
    Ok(sum)
}

/// Two matrices, stored row by row: the left one from `a` on, the right one from `b` on.
#[derive(Clone, Copy)]
pub struct Matrices {
    pub a: usize,
    pub b: usize,
    /// How many columns the left one has, and rows the right one.
    pub middle: usize,
    /// How many columns the right one has.
    pub columns: usize,
}

impl Rule<i32, Result<i32, ArithmeticFault>> for Matrices {
    ghost can = { λ s table k. (0 < s.columns) × (s.a + k / s.columns * s.middle + s.middle ≤ length table) × (s.b + s.middle * s.columns ≤ length table) × (s.b + k < 2 ^ 64) };

    ghost gives = { λ s table k. dot (cells table (s.a + k / s.columns * s.middle) s.middle) (strided table (s.b + k % s.columns) s.columns s.middle) };

    fn cell(&self, source: &[i32], k: usize) -> Result<i32, ArithmeticFault> {
        let row = self.a + k / self.columns * self.middle;
        let column = self.b + k % self.columns;
        inner(source, row, column, self.columns, self.middle)
    }
}

/// Writes the product of a matrix with `rows` rows and `middle` columns by one with `middle` rows and `columns` columns.
pub fn matrix_product(
    table: &mut [i32],
    a: usize,
    b: usize,
    rows: usize,
    middle: usize,
    columns: usize,
    to: usize,
) -> Result<(), ElementFault>
    requires left { a + rows * middle ≤ to }
    requires right { b + middle * columns ≤ to }
    requires within { to + rows * columns ≤ length table.old }
    ensures { Wrote (collected 1 (products rows middle columns (cells table.old a (rows * middle)) (cells table.old b (middle * columns)))) table.old to (rows * columns) result table.new }
{
    let (source, rest) = table.split_at_mut(to);
    let product = Matrices {
        a,
        b,
        middle,
        columns,
    };
    try_make(source, &mut rest[..rows * columns], &product)
}
