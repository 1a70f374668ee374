ghost use Rattle.std.specs.Prelude.{◌≡◌, ◌&&◌, IfOk, codes};
ghost use Rattle.std.specs.List.{fold};
ghost use Rattle.lk_params.specs.Findings.{sooner};
ghost use Rattle.lk_view_field.specs.FieldFindings.{measure_findings, needs_key, needs_sql};
ghost use Rattle.lk_written.specs.Values.{is_missing};

use crate::field_findings::{needs_key, needs_sql};
use lk_params::{Findings, Order};
use lk_read::Item;
use lk_types::Op;
use lk_val::NoMemory;
use lk_written::{add_wrong, find_in_filters, is_missing};
use std::alloc::Global;

/// The faults of a measure's values: another type, a missing `sql` or `sql_distinct_key`, and those of its filters. `object`
/// is the name `view.measure`. (Looker, LookML reference: measure)
pub fn find_in_measure(
    alloc: Global,
    object: &str,
    items: &[Item],
    op: Option<Op>,
    findings: &mut Findings,
) -> Result<(), NoMemory>
    ensures { IfOk result (λ _. findings.new.first
        ≡ fold sooner findings.old.first (measure_findings object.now items.now op)) }
{
    let no_sql = lacks_sql(op, items);
    let no_key = lacks_key(op, items);
    add_wrong(alloc, Order::Field, object, "type", op.is_none(), findings)?;
    add_wrong(alloc, Order::Field, object, "sql", no_sql, findings)?;
    add_wrong(
        alloc,
        Order::Field,
        object,
        "sql_distinct_key",
        no_key,
        findings,
    )?;
    find_in_filters(alloc, Order::Field, object, "filters", items, findings)?;
    Ok(())
}

fn lacks_sql(op: Option<Op>, items: &[Item]) -> bool
    ensures { result ≡ (needs_sql op && is_missing (codes "sql") items.now) }
{
    needs_sql(op) && is_missing("sql", items)
}

fn lacks_key(op: Option<Op>, items: &[Item]) -> bool
    ensures { result ≡ (needs_key op && is_missing (codes "sql_distinct_key") items.now) }
{
    needs_key(op) && is_missing("sql_distinct_key", items)
}
