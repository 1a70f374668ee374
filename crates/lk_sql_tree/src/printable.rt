ghost use Rattle.std.specs.Prelude.{◌≡◌};
ghost use Rattle.std.specs.List.{list_all};
ghost use Rattle.lk_sql_tree.specs.Forms.{over_groups, over_rows};
ghost use Rattle.lk_sql_tree.specs.SelectForms.{has_condition, if_some, is_item, is_join, is_printable, is_small, is_table};

use crate::expr::SqlExpr;
use crate::select::{Select, SqlItem, SqlJoin, SqlSort, SqlTable};
use lk_types::JoinKind;
use lk_val::is_text;

// What is bigger than any number of 32 bits.
const PAST_SMALL: u64 = 4294967296;

/// Whether the SELECT has the form of those that are printed: it has an item, WHERE and ON are over the columns of rows,
/// HAVING is over aggregates, an item is over one or the other, and only a cross join has no condition. It takes no
/// memory. (lookd)
#[tactic(auto, unfolding(crate::specs::SelectForms::is_printable))]
pub fn is_printable(s: &Select) -> bool
    ensures { result ≡ is_printable s.now }
{
    !s.items.is_empty()
        && are_items(s.items.as_slice())
        && is_table(&s.from)
        && are_joins(s.joins.as_slice())
        && is_over_rows(&s.rows)
        && are_small(s.groups.as_slice())
        && is_over_groups(&s.having)
        && are_sorts(s.sorts.as_slice())
        && is_limit(s.limit)
}

fn are_items(items: &[SqlItem]) -> bool
    ensures { result ≡ list_all is_item items.now }
{
    items.iter().all(is_item)
}

// An item is over rows or over groups. A `Text` is always UTF-8; the test says so to the clause.
fn is_item(item: &SqlItem) -> bool
    ensures { result ≡ is_item item.now }
{
    (item.value.is_over_rows() || item.value.is_over_groups()) && is_text(item.name.as_bytes())
}

fn is_table(table: &SqlTable) -> bool
    ensures { result ≡ is_table table.now }
{
    is_text(table.table.as_bytes()) && is_text(table.part.as_bytes())
}

fn are_joins(joins: &[SqlJoin]) -> bool
    ensures { result ≡ list_all is_join joins.now }
{
    joins.iter().all(is_join)
}

fn is_join(join: &SqlJoin) -> bool
    ensures { result ≡ is_join join.now }
{
    is_table(&join.right) && has_condition(join.kind, &join.on)
}

// Whether a join of the kind has a condition or none, as it has to.
fn has_condition(kind: JoinKind, on: &Option<SqlExpr>) -> bool
    ensures { result ≡ has_condition kind on.now }
{
    match (kind, on) {
        (JoinKind::Cross, None) => true,
        (JoinKind::Cross, Some(_)) | (_, None) => false,
        (_, Some(condition)) => condition.is_over_rows(),
    }
}

fn is_over_rows(condition: &Option<SqlExpr>) -> bool
    ensures { result ≡ if_some over_rows condition.now }
{
    match condition {
        Some(condition) => condition.is_over_rows(),
        None => true,
    }
}

fn is_over_groups(condition: &Option<SqlExpr>) -> bool
    ensures { result ≡ if_some over_groups condition.now }
{
    match condition {
        Some(condition) => condition.is_over_groups(),
        None => true,
    }
}

fn are_small(numbers: &[u32]) -> bool
    ensures { result ≡ list_all is_small numbers.now }
{
    numbers.iter().all(|number| is_small(*number))
}

fn are_sorts(sorts: &[SqlSort]) -> bool
    ensures { result ≡ list_all (λ o. is_small o.place) sorts.now }
{
    sorts.iter().all(|sort| is_small(sort.place))
}

fn is_limit(limit: Option<u32>) -> bool
    ensures { result ≡ if_some is_small limit }
{
    match limit {
        Some(limit) => is_small(limit),
        None => true,
    }
}

// A `u32` is always of 32 bits; the test says so to the clause.
fn is_small(number: u32) -> bool
    ensures { result ≡ is_small number }
{
    u64::from(number) < PAST_SMALL
}
