ghost use Rattle.std.specs.Prelude.{◌≡◌, ◌&&◌};
ghost use Rattle.std.specs.List.{list_any};
ghost use Rattle.std.specs.Cmp.Lexicographic.{pointwise};
ghost use Rattle.lk_types.specs.Filters.{is_same_filter, are_among, is_same_test, is_same_piece, is_same_days, is_same_period, is_same_end, is_same_bound, is_same_comparison, is_same_num};

use lk_types::{Comparison, Days, End, Filter, Period, Piece, Test};
use lk_val::Num;

/// Whether two filters have equal includes and equal excludes, each as a set: order and repetitions don't count, and
/// tests are equal where they are of one form with equal parts. It takes no memory. (lookd)
pub fn same(a: &Filter, b: &Filter) -> bool
    ensures { result ≡ is_same_filter a.now b.now }
{
    are_among(a.include.as_slice(), b.include.as_slice())
        && are_among(b.include.as_slice(), a.include.as_slice())
        && are_among(a.exclude.as_slice(), b.exclude.as_slice())
        && are_among(b.exclude.as_slice(), a.exclude.as_slice())
}

// Whether each of the tests is one of the others.
fn are_among(tests: &[Test], others: &[Test]) -> bool
    ensures { result ≡ are_among tests.now others.now }
{
    tests.iter().all(|test| is_among(test, others))
}

fn is_among(test: &Test, others: &[Test]) -> bool
    ensures { result ≡ list_any (is_same_test test.now) others.now }
{
    others.iter().any(|other| is_same_test(test, other))
}

fn is_same_test(a: &Test, b: &Test) -> bool
    ensures { result ≡ is_same_test a.now b.now }
{
    match (a, b) {
        (Test::Null, Test::Null) => true,
        (Test::Empty, Test::Empty) => true,
        (Test::Like(a), Test::Like(b)) => are_same_pieces(a.as_slice(), b.as_slice()),
        (Test::Is(a), Test::Is(b)) => is_same_num(*a, *b),
        (Test::Compare(a), Test::Compare(b)) => are_same_comparisons(a.as_slice(), b.as_slice()),
        (Test::To(a, b), Test::To(c, d)) => is_same_bound(*a, *c) && is_same_bound(*b, *d),
        (Test::Range(a, b), Test::Range(c, d)) => is_same_end(*a, *c) && is_same_end(*b, *d),
        (Test::In(a), Test::In(b)) => is_same_days(*a, *b),
        (Test::Before(a), Test::Before(b)) => is_same_days(*a, *b),
        (Test::After(a), Test::After(b)) => is_same_days(*a, *b),
        (Test::FromTo(a, b), Test::FromTo(c, d)) => is_same_days(*a, *c) && is_same_days(*b, *d),
        (Test::Truth(a), Test::Truth(b)) => a == b,
        (Test::Today, Test::Today) => true,
        (Test::Yesterday, Test::Yesterday) => true,
        (Test::This(p), Test::This(q)) => is_same_period(*p, *q),
        (Test::Last(p), Test::Last(q)) => is_same_period(*p, *q),
        (Test::Recent(m, p), Test::Recent(n, q)) => m == n && is_same_period(*p, *q),
        (Test::Ago(m, p), Test::Ago(n, q)) => m == n && is_same_period(*p, *q),
        _ => false,
    }
}

fn are_same_pieces(a: &[Piece], b: &[Piece]) -> bool
    ensures { result ≡ pointwise is_same_piece a.now b.now }
{
    a == b
}

fn are_same_comparisons(a: &[(Comparison, Num)], b: &[(Comparison, Num)]) -> bool
    ensures { result ≡ pointwise (λ c d. is_same_comparison c.0 d.0 && is_same_num c.1 d.1) a.now b.now }
{
    a == b
}

fn is_same_num(a: Num, b: Num) -> bool
    ensures { result ≡ is_same_num a b }
{
    a == b
}

fn is_same_bound(a: Option<Num>, b: Option<Num>) -> bool
    ensures { result ≡ is_same_bound a b }
{
    a == b
}

fn is_same_end(a: End, b: End) -> bool
    ensures { result ≡ is_same_end a b }
{
    a == b
}

fn is_same_days(a: Days, b: Days) -> bool
    ensures { result ≡ is_same_days a b }
{
    a == b
}

fn is_same_period(a: Period, b: Period) -> bool
    ensures { result ≡ is_same_period a b }
{
    a == b
}
