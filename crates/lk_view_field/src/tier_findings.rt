ghost use Rattle.std.specs.Prelude.{◌≡◌, ◌||◌, ◌&&◌, IfOk, codes};
ghost use Rattle.std.specs.List.{fold};
ghost use Rattle.lk_params.specs.Findings.{sooner};
ghost use Rattle.lk_view_field.specs.FieldFindings.{is_no_bounds, is_other_style, is_tier, tier_findings};
ghost use Rattle.lk_written.specs.Values.{is_missing, is_wrong_at};

use crate::tiers::bounds_in;
use lk_objects::DimensionType;
use lk_params::{Findings, Order, last_named, scalar};
use lk_read::Item;
use lk_val::NoMemory;
use lk_written::{add_wrong, is_missing, is_text};
use std::alloc::Global;

/// The faults of a dimension's tiers: bounds that are missing where it is a tier, or no ascending whole numbers, and
/// another style than `integer`. `object` is the name `view.dimension`. (Looker, LookML reference: tiers, style)
pub fn find_in_tiers(
    alloc: Global,
    object: &str,
    items: &[Item],
    kind: Option<DimensionType>,
    findings: &mut Findings,
) -> Result<(), NoMemory>
    ensures { IfOk result (λ _. findings.new.first
        ≡ fold sooner findings.old.first (tier_findings object.now items.now kind)) }
{
    let lacks_tiers = is_tier(kind) && is_missing("tiers", items);
    let is_wrong = has_no_bounds(alloc, items)? || lacks_tiers;
    add_wrong(alloc, Order::Field, object, "tiers", is_wrong, findings)?;
    add_wrong(
        alloc,
        Order::Field,
        object,
        "style",
        has_other_style(items),
        findings,
    )
}

fn has_no_bounds(alloc: Global, items: &[Item]) -> Result<bool, NoMemory>
    ensures { IfOk result (λ has. has ≡ is_wrong_at is_no_bounds (codes "tiers") items.now) }
{
    match last_named("tiers", items) {
        None => Ok(false),
        Some(item) => Ok(bounds_in(alloc, &item.value)?.is_none()),
    }
}

fn has_other_style(items: &[Item]) -> bool
    ensures { result ≡ is_wrong_at is_other_style (codes "style") items.now }
{
    match last_named("style", items) {
        None => false,
        Some(item) => !is_text("integer", scalar(&item.value)),
    }
}

fn is_tier(kind: Option<DimensionType>) -> bool
    ensures { result ≡ is_tier kind }
{
    kind == Some(DimensionType::Tier)
}
