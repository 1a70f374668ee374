ghost use Rattle.std.specs.Prelude.{◌≡◌, IfOk, length, nat_lt, true};
ghost use Rattle.std.specs.List.{list_all};
ghost use Rattle.lk_types.specs.Dates.{is_dated};
ghost use Rattle.lk_semantics.specs.Derived.{explore_at};
ghost use Rattle.lk_semantics.specs.Resolved.{IsInModel};
ghost use Rattle.lk_semantics.specs.Rollups.{rollup_at};
ghost use Rattle.lk_regroup_laws.specs.Regroup.{answer_regrouped, regrouped};

use crate::asked::Regrouping;
use crate::grouping::{add_empty_group, finished, gathered};
use lk_lines::answer_lines;
use lk_rollup::{explore_of, rollup_of};
use lk_types::{Answer, Bound, Explore, GroupRow, Model, Partial, Rollup};
use lk_val::{Items, NoMemory, Value};
use std::alloc::Global;

/// The groups of a query with the cells of its components, ascending, from the rows of an aggregate table that fits it:
/// aggregate table `r`, by number, of the explore that the query asks. It takes one pass over the rows, whose groups have
/// days and moments of the years 1 to 9999, as those that are kept of valid tables. A count or a sum past its type is
/// want of memory. (lookd)
pub fn regroup(
    alloc: Global,
    m: &Model,
    r: u32,
    rows: &[(Items<Value>, Items<Partial>)],
    b: &Bound,
) -> Result<Items<GroupRow>, NoMemory>
    requires query { IsInModel m.now b.now }
    requires rollup { nat_lt r (length (explore_at m.now b.now.explore).rollups) ≡ true }
    requires dated { list_all (λ row. list_all is_dated row.0) rows.now ≡ true }
    ensures { IfOk result (λ groups. groups ≡ regrouped (explore_at m.now b.now.explore)
        (rollup_at (explore_at m.now b.now.explore) r) b.now rows.now) }
{
    let x = explore_of(m, b.explore);
    regrouped(alloc, x, rollup_of(x, r), rows, b)
}

/// The answer of a query from the rows of an aggregate table that fits it: the first lines of its groups, and whether
/// these are all. (lookd)
pub fn answer_from_rollup(
    alloc: Global,
    m: &Model,
    r: u32,
    rows: &[(Items<Value>, Items<Partial>)],
    b: &Bound,
) -> Result<Answer, NoMemory>
    requires query { IsInModel m.now b.now }
    requires rollup { nat_lt r (length (explore_at m.now b.now.explore).rollups) ≡ true }
    requires dated { list_all (λ row. list_all is_dated row.0) rows.now ≡ true }
    ensures { IfOk result (λ answer. answer ≡ answer_regrouped (explore_at m.now b.now.explore)
        (rollup_at (explore_at m.now b.now.explore) r) b.now rows.now) }
{
    let x = explore_of(m, b.explore);
    let groups = regrouped(alloc, x, rollup_of(x, r), rows, b)?;
    answer_lines(alloc, x, b, groups)
}

// The same, of an explore and its aggregate table.
fn regrouped(
    alloc: Global,
    x: &Explore,
    r: &Rollup,
    rows: &[(Items<Value>, Items<Partial>)],
    b: &Bound,
) -> Result<Items<GroupRow>, NoMemory>
    requires dated { list_all (λ row. list_all is_dated row.0) rows.now ≡ true }
    ensures { IfOk result (λ groups. groups ≡ regrouped x.now r.now b.now rows.now) }
{
    let how = Regrouping::new(alloc, x, r, b)?;
    let mut groups = gathered(alloc, &how, rows)?;
    add_empty_group(alloc, &mut groups, &how)?;
    finished(alloc, groups)
}
