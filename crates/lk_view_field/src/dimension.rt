ghost use Rattle.std.specs.Prelude.{◌≡◌, not, codes, IfOk};
ghost use Rattle.std.specs.List.{fold};
ghost use Rattle.lk_params.specs.Findings.{sooner};
ghost use Rattle.lk_params.specs.Values.{scalar};
ghost use Rattle.lk_written.specs.Values.{is_no_truth, is_wrong_at};
ghost use Rattle.lk_view_field.specs.FieldFindings.{dimension_findings};

use crate::tier_findings::find_in_tiers;
use lk_objects::DimensionType;
use lk_params::{Findings, Order, last_named, scalar};
use lk_read::Item;
use lk_val::NoMemory;
use lk_written::{add_wrong, is_no_truth};
use std::alloc::Global;

/// The faults of a dimension's values: another type, a `primary_key` that is neither yes nor no, and those of its tiers.
/// `object` is the name `view.dimension`. (Looker, LookML reference: dimension)
pub fn find_in_dimension(
    alloc: Global,
    object: &str,
    items: &[Item],
    kind: Option<DimensionType>,
    findings: &mut Findings,
) -> Result<(), NoMemory>
    ensures { IfOk result (λ _. findings.new.first
        ≡ fold sooner findings.old.first (dimension_findings object.now items.now kind)) }
{
    add_wrong(
        alloc,
        Order::Field,
        object,
        "type",
        kind.is_none(),
        findings,
    )?;
    add_wrong(
        alloc,
        Order::Field,
        object,
        "primary_key",
        has_no_key_mark(items),
        findings,
    )?;
    find_in_tiers(alloc, object, items, kind, findings)?;
    Ok(())
}

fn has_no_key_mark(items: &[Item]) -> bool
    ensures { result ≡ is_wrong_at (λ value. is_no_truth (scalar value)) (codes "primary_key") items.now }
{
    match last_named("primary_key", items) {
        None => false,
        Some(item) => is_no_truth(scalar(&item.value)),
    }
}
