// Which numbers meet a test: numbers of a table, and exact fractions.

ghost use Rattle.std.specs.Prelude.{◌≡◌, pos};
ghost use Rattle.std.specs.List.{list_all};
ghost use Rattle.lk_val.specs.Fractions.{frac_cmp, reduced};
ghost use Rattle.lk_types.specs.Filters.{number_meets, compares, at_least, at_most, is_above, is_below};

use lk_types::{Comparison, Edge, End, Test};
use lk_val::{Frac, Num};
use std::cmp::Ordering;

// A number that is compared exactly with the numbers of a test.
pub(crate) trait Exact {
    ghost use Rattle.lk_val.specs.Fractions.{Fraction};

    ghost fraction: { Self → Fraction };

    fn cmp_num(&self, num: Num) -> Ordering
        ensures { result ≡ frac_cmp (fraction self.now) (record { n = num.0; d = pos 10000 }) };
}

impl Exact for Num {
    ghost fraction = { λ num. record { n = num.0; d = pos 10000 } };

    fn cmp_num(&self, num: Num) -> Ordering {
        (*self).cmp(&num)
    }
}

impl Exact for Frac {
    ghost fraction = { λ f. f };

    fn cmp_num(&self, num: Num) -> Ordering {
        (*self).cmp(fraction_of(num))
    }
}

fn fraction_of(num: Num) -> Frac
    ensures { result ≡ reduced num.0 (pos 10000) }
{
    Frac::new(i128::from(num.0), 10_000)
}

pub(crate) fn number_meets<N: Exact>(number: &N, test: &Test) -> bool
    ensures { result ≡ number_meets (N.fraction number.now) test.now }
{
    match test {
        Test::Is(num) => compares(number, Comparison::Equal, *num),
        Test::Compare(comparisons) => compares_all(number, comparisons.as_slice()),
        Test::To(low, high) => is_at_least(number, *low) && is_at_most(number, *high),
        Test::Range(low, high) => is_above(number, *low) && is_below(number, *high),
        _ => false,
    }
}

fn compares_all<N: Exact>(number: &N, comparisons: &[(Comparison, Num)]) -> bool
    ensures { result ≡ list_all (λ c. compares (N.fraction number.now) c.0 c.1) comparisons.now }
{
    comparisons.iter().all(|c| compares(number, c.0, c.1))
}

fn compares<N: Exact>(number: &N, comparison: Comparison, num: Num) -> bool
    ensures { result ≡ compares (N.fraction number.now) comparison num }
{
    comparison.holds(number.cmp_num(num))
}

fn is_at_least<N: Exact>(number: &N, bound: Option<Num>) -> bool
    ensures { result ≡ at_least (N.fraction number.now) bound }
{
    match bound {
        None => true,
        Some(num) => compares(number, Comparison::AtLeast, num),
    }
}

fn is_at_most<N: Exact>(number: &N, bound: Option<Num>) -> bool
    ensures { result ≡ at_most (N.fraction number.now) bound }
{
    match bound {
        None => true,
        Some(num) => compares(number, Comparison::AtMost, num),
    }
}

// Whether a number is within an interval's lower end.
fn is_above<N: Exact>(number: &N, low: End) -> bool
    ensures { result ≡ is_above (N.fraction number.now) low.edge low.closed }
{
    match low.edge {
        Edge::Lowest => true,
        Edge::Highest => false,
        Edge::At(num) if low.closed => compares(number, Comparison::AtLeast, num),
        Edge::At(num) => compares(number, Comparison::Greater, num),
    }
}

// Whether a number is within an interval's upper end.
fn is_below<N: Exact>(number: &N, high: End) -> bool
    ensures { result ≡ is_below (N.fraction number.now) high.edge high.closed }
{
    match high.edge {
        Edge::Lowest => false,
        Edge::Highest => true,
        Edge::At(num) if high.closed => compares(number, Comparison::AtMost, num),
        Edge::At(num) => compares(number, Comparison::Less, num),
    }
}
