ghost use Rattle.std.specs.Prelude.{◌≡◌, Bool, true, not};
ghost use Rattle.std.specs.List.{list_any};
ghost use Rattle.lk_types.specs.Filters.{passes, passes_by, passes_frac, meets, number_meets};

use crate::comparing::number_meets;
use crate::meeting::meets;
use lk_types::{Filter, Test};
use lk_val::{Frac, Value};

/// Whether a value passes a placed filter: it meets some include, or there is none, and no exclude. Null meets only
/// `NULL` and `EMPTY`, and no value meets a relative date. It takes no memory. (Looker, filter expressions)
pub fn passes(f: &Filter, v: &Value) -> bool
    ensures { result ≡ passes f.now v.now }
{
    passes_by(f, v)
}

/// Whether a fraction, or null where there is none, passes a placed filter of numbers. The fraction is compared by its
/// exact value. It takes no memory. (Looker, filter expressions: number)
pub fn passes_frac(f: &Filter, v: Option<Frac>) -> bool
    ensures { result ≡ passes_frac f.now v }
{
    match v {
        None => passes_by(f, &Value::Null),
        Some(fraction) => passes_by(f, &fraction),
    }
}

// What a filter is asked for: it meets tests or doesn't.
trait Subject {
    ghost use Rattle.std.specs.Prelude.{Bool};
    ghost use Rattle.lk_types.specs.declared.filter.Test.{Test};

    ghost met: { Self → Test → Bool };

    fn meets(&self, test: &Test) -> bool
        ensures { result ≡ met self.now test.now };
}

impl Subject for Value {
    ghost met = { meets };

    fn meets(&self, test: &Test) -> bool {
        meets(self, test)
    }
}

impl Subject for Frac {
    ghost met = { number_meets };

    fn meets(&self, test: &Test) -> bool {
        number_meets(self, test)
    }
}

fn passes_by<S: Subject>(f: &Filter, subject: &S) -> bool
    ensures { result ≡ passes_by (S.met subject.now) f.now }
{
    let include = f.include.as_slice();
    let exclude = f.exclude.as_slice();
    (is_empty(include) || meets_some(subject, include)) && !meets_some(subject, exclude)
}

fn meets_some<S: Subject>(subject: &S, tests: &[Test]) -> bool
    ensures { result ≡ list_any (S.met subject.now) tests.now }
{
    tests.iter().any(|test| subject.meets(test))
}

fn is_empty(tests: &[Test]) -> bool
    ensures { result ≡ not (list_any (λ t. true) tests.now) }
{
    tests.is_empty()
}
