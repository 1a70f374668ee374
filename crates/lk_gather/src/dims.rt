ghost use Rattle.std.specs.Prelude.{◌≡◌, IfOk, pos, neg_ℤ, ◌^◌, map, true};
ghost use Rattle.std.specs.List.{list_all};
ghost use Rattle.lk_types.specs.Shapes.{bound_below, plain_value, tier_of};
ghost use Rattle.lk_types.specs.Dates.{is_row_dated};
ghost use Rattle.lk_val.specs.declared.value.Value.{Value as AnyValue};
ghost use Rattle.lk_semantics.specs.Rows.{field_at, no_field};
ghost use Rattle.lk_filter.specs.PlacedModel.{placed_field_filter};
ghost use Rattle.lk_gather.specs.Dims.{AreDims, AreTests, IsDim, IsTest, are_fine_tests, dim_of, finished, has_fine_finish, is_bound, is_fine_dim, is_fine_field, is_met_by};

use crate::moment::MomentFilter;
use lk_eval::{HasCells, eval_over};
use lk_filter::passes;
use lk_types::{Explore, Expr, Field, Filter, Kind, Node, Shape};
use lk_val::{Items, NoMemory, Num, Value};
use std::alloc::Global;

// What is made of the value of a field's expression: the value itself, an unknown yes or no as no, or the lower bound of
// the tier that a number is in.
#[derive(Drop)]
pub(crate) enum Finish<'a> {
    Same,
    YesNo,
    Tier(&'a [i64]),
}

// A field, ready to be computed on rows: a timeframe stands in the expression.
#[derive(Drop)]
pub(crate) struct Dim<'a> {
    pub(crate) expr: Expr,
    pub(crate) finish: Finish<'a>,
}

// A filter on a field, at a moment.
#[derive(Drop)]
pub(crate) struct FieldTest<'a> {
    pub(crate) dim: Dim<'a>,
    pub(crate) filter: MomentFilter<'a>,
}

impl<'a> Finish<'a> {
    fn of(&self, value: Value) -> Value
        requires { has_fine_finish self.now ≡ true }
        ensures { result ≡ finished self.now value }
    {
        match self {
            Finish::Same => value,
            Finish::YesNo => Value::Truth(matches!(value, Value::Truth(true))),
            Finish::Tier(bounds) => tier_of(bounds, &value),
        }
    }
}

fn tier_of(bounds: &[i64], value: &Value) -> Value
    requires { list_all is_bound bounds.now ≡ true }
    ensures { result ≡ tier_of bounds.now value.now }
{
    match value {
        Value::Num(number) => Value::Num(Num(bound_below(number.0, bounds))),
        _ => Value::Null,
    }
}

// The greatest bound that is at most the number, or the least number.
fn bound_below(number: i64, bounds: &[i64]) -> i64
    requires { list_all is_bound bounds.now ≡ true }
    ensures { result ≡ bound_below number bounds.now (neg_ℤ (pos (2 ^ 63))) }
{
    let mut low = i64::MIN;
    for bound in bounds {
        let at = *bound * 10_000;
        if number < at {
            return low;
        }
        low = at;
    }
    low
}

impl<'a> Dim<'a> {
    /// The field of a number.
    pub(crate) fn at(alloc: Global, explore: &'a Explore, number: u32) -> Result<Dim<'a>, NoMemory>
        requires { list_all is_fine_field explore.now.fields ≡ true }
        ensures { IfOk result (IsDim (field_at explore.now number)) }
    {
        match explore.fields.as_slice().get(number as usize) {
            Some(field) => Dim::of(alloc, field),
            None => Dim::missing(alloc),
        }
    }

    fn missing(alloc: Global) -> Result<Dim<'a>, NoMemory>
        ensures { IfOk result (IsDim no_field) }
    {
        Ok(Dim {
            expr: Expr::leaf(alloc, Node::Literal(Value::Null))?,
            finish: Finish::Same,
        })
    }

    fn of(alloc: Global, field: &'a Field) -> Result<Dim<'a>, NoMemory>
        requires { is_fine_field field.now ≡ true }
        ensures { IfOk result (IsDim field.now) }
    {
        let expr = field.expr.copy(alloc)?;
        match &field.shape {
            Shape::Plain => Ok(Dim::plain(field.kind, expr)),
            Shape::Tier(bounds) => Ok(Dim {
                expr,
                finish: Finish::Tier(bounds.as_slice()),
            }),
            Shape::Frame(_, frame) => Ok(Dim {
                expr: Expr::unary(Node::Framed(*frame), expr)?,
                finish: Finish::Same,
            }),
        }
    }

    fn plain(kind: Kind, expr: Expr) -> Dim<'a>
        ensures expr { result.expr ≡ expr }
        ensures finish { (v : AnyValue) → finished result.finish v ≡ plain_value kind v }
        ensures fine { has_fine_finish result.finish ≡ true }
    {
        let finish = if kind == Kind::Truth {
            Finish::YesNo
        } else {
            Finish::Same
        };
        Dim { expr, finish }
    }

    /// Its value on a row.
    pub(crate) fn value<R: HasCells>(&self, alloc: Global, row: &R) -> Result<Value, NoMemory>
        requires row { is_row_dated (R.row_of row.now) ≡ true }
        requires fine { is_fine_dim self.now ≡ true }
        ensures { IfOk result (λ value. value ≡ dim_of self.now (R.row_of row.now)) }
    {
        let value = eval_over(alloc, &self.expr, row)?;
        Ok(self.finish.of(value))
    }
}

/// The fields of some numbers, in order.
pub(crate) fn dims_at<'a>(
    alloc: Global,
    explore: &'a Explore,
    numbers: &[u32],
) -> Result<Items<Dim<'a>>, NoMemory>
    requires { list_all is_fine_field explore.now.fields ≡ true }
    ensures { IfOk result (AreDims explore.now numbers.now) }
{
    let mut dims = Items::new(alloc);
    for number in numbers {
        dims.push(Dim::at(alloc, explore, *number)?)?;
    }
    Ok(dims)
}

/// The values of some fields on a row, in order.
pub(crate) fn dim_values<R: HasCells>(
    alloc: Global,
    dims: &[Dim<'_>],
    row: &R,
) -> Result<Items<Value>, NoMemory>
    requires row { is_row_dated (R.row_of row.now) ≡ true }
    requires fine { list_all is_fine_dim dims.now ≡ true }
    ensures { IfOk result (λ values. values ≡ map (λ d. dim_of d (R.row_of row.now)) dims.now) }
{
    let mut values = Items::new(alloc);
    for dim in dims {
        values.push(dim.value(alloc, row)?)?;
    }
    Ok(values)
}

/// The tests of some filters on fields at a moment, in order.
pub(crate) fn tests_of<'a>(
    alloc: Global,
    explore: &'a Explore,
    filters: &'a [(u32, Filter)],
    now: i64,
) -> Result<Items<FieldTest<'a>>, NoMemory>
    requires { list_all is_fine_field explore.now.fields ≡ true }
    ensures { IfOk result (AreTests explore.now (map (placed_field_filter now) filters.now)) }
{
    let mut tests = Items::new(alloc);
    for filter in filters {
        tests.push(test_of(alloc, explore, filter, now)?)?;
    }
    Ok(tests)
}

fn test_of<'a>(
    alloc: Global,
    explore: &'a Explore,
    filter: &'a (u32, Filter),
    now: i64,
) -> Result<FieldTest<'a>, NoMemory>
    requires { list_all is_fine_field explore.now.fields ≡ true }
    ensures { IfOk result (IsTest explore.now (placed_field_filter now filter.now)) }
{
    Ok(FieldTest {
        dim: Dim::at(alloc, explore, filter.0)?,
        filter: MomentFilter::at(alloc, &filter.1, now)?,
    })
}

/// Whether a row passes each test.
pub(crate) fn passes_each<R: HasCells>(
    alloc: Global,
    tests: &[FieldTest<'_>],
    row: &R,
) -> Result<bool, NoMemory>
    requires row { is_row_dated (R.row_of row.now) ≡ true }
    requires fine { are_fine_tests tests.now ≡ true }
    ensures { IfOk result (λ passes. passes ≡ list_all (is_met_by (R.row_of row.now)) tests.now) }
{
    for test in tests {
        if !passes_test(alloc, test, row)? {
            return Ok(false);
        }
    }
    Ok(true)
}

fn passes_test<R: HasCells>(alloc: Global, test: &FieldTest<'_>, row: &R) -> Result<bool, NoMemory>
    requires row { is_row_dated (R.row_of row.now) ≡ true }
    requires fine { is_fine_dim test.now.dim ≡ true }
    ensures { IfOk result (λ passes. passes ≡ is_met_by (R.row_of row.now) test.now) }
{
    let value = test.dim.value(alloc, row)?;
    Ok(passes(test.filter.filter(), &value))
}
