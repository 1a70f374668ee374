// Which views the fields, measures and conditions of an explore mention.

ghost use Rattle.std.specs.Prelude.{◌≡◌, ◌||◌, nat_eq};
ghost use Rattle.std.specs.List.{list_any};
ghost use Rattle.lk_types.specs.Expressions.{has_number};
ghost use Rattle.lk_semantics.specs.Answers.{measure_at, value_taken};
ghost use Rattle.lk_semantics.specs.Derived.{asked_parts, field_parts, key_parts, measure_parts};
ghost use Rattle.lk_semantics.specs.Joins.{condition_of, mentions_of, part_at};

use lk_types::{Explore, Expr, Filter, Join, JoinKind, Measure, Op};

// Whether some fields and measures of an explore mention a view.
pub(crate) fn ask_part(x: &Explore, fields: &[u32], measures: &[u32], part: u32) -> bool
    ensures { result ≡ has_number part (asked_parts x.now fields.now measures.now) }
{
    do_fields_read(x, fields, part) || do_measures_read(x, measures, part)
}

fn do_fields_read(x: &Explore, fields: &[u32], part: u32) -> bool
    ensures { result ≡ list_any (λ f. has_number part (field_parts x.now f)) fields.now }
{
    fields.iter().any(|f| field_reads(x, *f, part))
}

fn field_reads(x: &Explore, f: u32, part: u32) -> bool
    ensures { result ≡ has_number part (field_parts x.now f) }
{
    match x.fields.as_slice().get(f as usize) {
        Some(field) => field.expr.reads(part),
        None => false,
    }
}

fn do_measures_read(x: &Explore, measures: &[u32], part: u32) -> bool
    ensures { result ≡ list_any (λ m. has_number part (measure_parts x.now (measure_at x.now m))) measures.now }
{
    measures.iter().any(|m| measure_reads(x, *m, part))
}

fn measure_reads(x: &Explore, m: u32, part: u32) -> bool
    ensures { result ≡ has_number part (measure_parts x.now (measure_at x.now m)) }
{
    match x.measures.as_slice().get(m as usize) {
        Some(measure) => reads_of_measure(x, measure, part),
        // A measure that is not there stands for a count of the base view.
        None => part == 0 || view_key_reads(x, 0, part),
    }
}

fn reads_of_measure(x: &Explore, measure: &Measure, part: u32) -> bool
    ensures { result ≡ has_number part (measure_parts x.now measure.now) }
{
    reads_of_value(x, measure, part) || do_filters_read(x, measure.filters.as_slice(), part)
}

// Whether a measure mentions a view but for its filters.
fn reads_of_value(x: &Explore, measure: &Measure, part: u32) -> bool
    ensures { result ≡ ((nat_eq part measure.now.part || has_number part (key_parts x.now measure.now)) || has_number part (mentions_of (value_taken measure.now))) }
{
    part == measure.part || key_reads(x, measure, part) || value_reads(measure, part)
}

// Whether the key of a measure mentions a view, where its type uses one.
fn key_reads(x: &Explore, measure: &Measure, part: u32) -> bool
    ensures { result ≡ has_number part (key_parts x.now measure.now) }
{
    match measure.op {
        Op::Count | Op::Sum | Op::Average => view_key_reads(x, measure.part, part),
        Op::SumDistinct | Op::AverageDistinct => condition_reads(&measure.key, part),
        Op::CountDistinct | Op::Min | Op::Max | Op::Number => false,
    }
}

// Whether the primary key of a view mentions another.
fn view_key_reads(x: &Explore, of: u32, part: u32) -> bool
    ensures { result ≡ has_number part (mentions_of (part_at x.now of).key) }
{
    match x.parts.as_slice().get(of as usize) {
        Some(view) => condition_reads(&view.key, part),
        None => false,
    }
}

// Whether the value that a measure computes with mentions a view.
fn value_reads(measure: &Measure, part: u32) -> bool
    ensures { result ≡ has_number part (mentions_of (value_taken measure.now)) }
{
    match measure.op {
        Op::Count | Op::Number => false,
        _ => condition_reads(&measure.value, part),
    }
}

fn do_filters_read(x: &Explore, filters: &[(u32, Filter)], part: u32) -> bool
    ensures { result ≡ list_any (λ f. has_number part (field_parts x.now f.0)) filters.now }
{
    filters.iter().any(|filter| field_reads(x, filter.0, part))
}

// Whether an expression, if there is one, mentions a view.
pub(crate) fn condition_reads(e: &Option<Expr>, part: u32) -> bool
    ensures { result ≡ has_number part (mentions_of e.now) }
{
    match e {
        Some(e) => e.reads(part),
        None => false,
    }
}

// Whether the condition of a join mentions a view; a cross join has none.
pub(crate) fn join_reads(join: &Join, part: u32) -> bool
    ensures { result ≡ has_number part (mentions_of (condition_of join.now)) }
{
    match join.kind {
        JoinKind::Cross => false,
        JoinKind::Left | JoinKind::Full | JoinKind::Inner => condition_reads(&join.on, part),
    }
}
