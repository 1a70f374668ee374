ghost use Rattle.std.specs.Prelude.{◌≡◌, ◌≤◌, ◌<◌, ◌+◌, IfOk, IsOkAnd, if◌then◌else◌, length, map};
ghost use Rattle.std.specs.Arc.{arc_value};
ghost use Rattle.lk_val.specs.Memory.{IsUnlessMemory};
ghost use Rattle.lk_val.specs.Years.{IsMomentInYears};
ghost use Rattle.lk_types.specs.Expressions.{has_number};
ghost use Rattle.lk_table.specs.Contents.{rows_of_each};
ghost use Rattle.lk_trigger.specs.Builds.{build_at, built_at, datagroup_at};
ghost use Rattle.lk_keeps.specs.Anew.{kept_anew};
ghost use Rattle.lk_keeps.specs.Keeps.{AreKept};
ghost use Rattle.lk_ledger.specs.Saving.{check};
ghost use Rattle.lk_edition.specs.Checks.{built, check_planned, checked, is_no_memory, over_keeps, over_triggered, rebuilt};

use crate::edition::{Edition, Made};
use crate::loading::is_loader;
use crate::plan::{CheckPlan, Pending, ToSave};
use lk_command_reply::{CheckFault, built_reply};
use lk_keeps::{Keeps, keep_anew, what_is_built_anew_is_kept};
use lk_rollup::BuildFault;
use lk_trigger::{Build, built, triggered};
use lk_types::{Datagroup, Reply};
use lk_val::{Items, NoMemory, Text};
use std::alloc::Global;
use std::sync::Arc;

// The greatest number of a state.
const NUMBER_LIMIT: u64 = 9_223_372_036_854_775_807;

/// What a check at a moment comes to on an edition.
pub(crate) fn plan_check(
    alloc: Global,
    edition: &Edition,
    user: &Text,
    now: i64,
) -> Result<CheckPlan, CheckFault>
    requires { IsMomentInYears now }
    ensures { IsUnlessMemory is_no_memory result (check_planned edition.now user.now now) }
{
    if !is_loader(alloc, edition.users(), user)? {
        return Err(CheckFault::G1(user.copy(alloc)?));
    }
    edition.stands();
    let datagroups = edition.model().datagroups.as_slice();
    let groups = triggered(alloc, datagroups, edition.tables(), edition.builds(), now)?;
    over_triggered(alloc, edition, groups.as_slice(), now)
}

// What a check comes to where these datagroups trigger: nothing is done where none does.
fn over_triggered(
    alloc: Global,
    edition: &Edition,
    groups: &[u32],
    now: i64,
) -> Result<CheckPlan, CheckFault>
    requires { IsMomentInYears now }
    ensures { IsUnlessMemory is_no_memory result (over_triggered edition.now now groups.now) }
{
    if groups.is_empty() {
        let reply = built_reply(alloc, Items::new(alloc), edition.number())?;
        return Ok(CheckPlan::Nothing(reply));
    }
    if edition.next_number() > NUMBER_LIMIT {
        return Err(CheckFault::G2(Text::new(alloc)));
    }
    over_keeps(alloc, edition, groups, now)
}

// All of these datagroups are built over the present tables, unless a build is too large.
fn over_keeps(
    alloc: Global,
    edition: &Edition,
    groups: &[u32],
    now: i64,
) -> Result<CheckPlan, CheckFault>
    requires years { IsMomentInYears now }
    requires next { edition.now.state.number + 1 ≤ 9223372036854775807 }
    ensures { IsUnlessMemory is_no_memory result (over_keeps edition.now groups.now now
        (kept_anew edition.now.model groups.now (rows_of_each edition.now.state.tables) edition.now.keeps)) }
{
    edition.stands();
    what_is_built_anew_is_kept();
    let keeps = keep_anew(
        alloc,
        edition.model(),
        edition.order(),
        edition.tables(),
        groups,
        edition.keeps(),
    );
    match keeps {
        Ok(keeps) => Ok(CheckPlan::New(pending_of(alloc, edition, groups, now, keeps)?)),
        Err(BuildFault::G2(name)) => Err(CheckFault::G2(name)),
        Err(BuildFault::NoMemory) => Err(CheckFault::NoMemory),
    }
}

// The plan of a check that builds these datagroups, after which this is kept.
fn pending_of(
    alloc: Global,
    edition: &Edition,
    groups: &[u32],
    now: i64,
    keeps: Keeps,
) -> Result<Pending, NoMemory>
    requires years { IsMomentInYears now }
    requires next { edition.now.state.number + 1 ≤ 9223372036854775807 }
    requires kept { AreKept edition.now.model keeps }
    ensures { IfOk result (λ pending. pending ≡ built edition.now groups.now now keeps) }
{
    let number = edition.next_number();
    let names = names_of(alloc, edition.model().datagroups.as_slice(), groups)?;
    let reply = built_reply(alloc, names, number);
    let next = edition_checked(alloc, edition, groups, now, keeps);
    pending(next, number, reply)
}

// The plan of these parts, if they were made.
fn pending(
    edition: Result<Arc<Edition>, NoMemory>,
    number: u64,
    reply: Result<Reply, NoMemory>,
) -> Result<Pending, NoMemory>
    ensures { IfOk result (λ pending. IsOkAnd edition (λ next. IsOkAnd reply (λ answer.
        pending ≡ record { standing = arc_value next; save = check number; reply = answer }))) }
{
    let edition = edition?;
    Ok(Pending {
        edition,
        save: ToSave::Check(number),
        reply: reply?,
    })
}

// The edition of the next state.
fn edition_checked(
    alloc: Global,
    edition: &Edition,
    groups: &[u32],
    now: i64,
    keeps: Keeps,
) -> Result<Arc<Edition>, NoMemory>
    requires years { IsMomentInYears now }
    requires next { edition.now.state.number + 1 ≤ 9223372036854775807 }
    requires kept { AreKept edition.now.model keeps }
    ensures { IfOk result (λ next. arc_value next ≡ checked edition.now groups.now now keeps) }
{
    edition.stands();
    let builds = rebuilt(alloc, edition, groups, now)?;
    let made = Arc::new(alloc, Made { builds, keeps })?;
    let next = edition.next_made(alloc, made)?;
    Ok(Arc::new(alloc, next)?)
}

// The last builds, where some datagroups are built at the next state.
fn rebuilt(
    alloc: Global,
    edition: &Edition,
    groups: &[u32],
    now: i64,
) -> Result<Items<Build>, NoMemory>
    requires { IsMomentInYears now }
    ensures { IfOk result (λ builds. builds ≡ rebuilt edition.now groups.now now) }
{
    let mut builds = Items::new(alloc);
    for group in 0..edition.model().datagroups.len() {
        builds.push(build_of(alloc, edition, groups, group, now)?)?;
    }
    Ok(builds)
}

// The last build of a datagroup, where some are built at the next state.
fn build_of(
    alloc: Global,
    edition: &Edition,
    groups: &[u32],
    group: usize,
    now: i64,
) -> Result<Build, NoMemory>
    requires years { IsMomentInYears now }
    requires within { group < length edition.now.model.datagroups }
    ensures { IfOk result (λ build. build ≡ (if has_number group groups.now
        then built_at (rows_of_each edition.now.state.tables) (edition.now.state.number + 1) now
        (datagroup_at edition.now.model.datagroups group)
        else build_at edition.now.builds group)) }
{
    edition.stands();
    if has_group(groups, group) {
        let datagroup = &edition.model().datagroups.as_slice()[group];
        built(
            alloc,
            datagroup,
            edition.tables(),
            edition.next_number(),
            now,
        )
    } else {
        copied(alloc, &edition.builds()[group])
    }
}

fn has_group(groups: &[u32], group: usize) -> bool
    ensures { result ≡ has_number group groups.now }
{
    groups.iter().any(|other| group == *other as usize)
}

fn copied(alloc: Global, build: &Build) -> Result<Build, NoMemory>
    ensures { IfOk result (λ copied. copied ≡ build.now) }
{
    Ok(Build {
        value: build.value.copy(alloc)?,
        moment: build.moment,
        number: build.number,
    })
}

// The names of datagroups by number.
fn names_of(
    alloc: Global,
    datagroups: &[Datagroup],
    groups: &[u32],
) -> Result<Items<Text>, NoMemory>
    ensures { IfOk result (λ names. names ≡ map (λ g. (datagroup_at datagroups.now g).name) groups.now) }
{
    let mut names = Items::new(alloc);
    for group in groups {
        names.push(name_of(alloc, datagroups, *group)?)?;
    }
    Ok(names)
}

fn name_of(alloc: Global, datagroups: &[Datagroup], group: u32) -> Result<Text, NoMemory>
    ensures { IfOk result (λ name. name ≡ (datagroup_at datagroups.now group).name) }
{
    match datagroups.get(group as usize) {
        Some(datagroup) => datagroup.name.copy(alloc),
        None => Ok(Text::new(alloc)),
    }
}
