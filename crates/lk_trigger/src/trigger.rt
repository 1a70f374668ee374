ghost use Rattle.std.specs.Prelude.{◌≡◌, ◌++◌, ◌∷◌, [], IfOk, OnOk, if◌then◌else◌, length};
ghost use Rattle.lk_val.specs.Years.{IsMomentInYears};
ghost use Rattle.lk_table.specs.Contents.{rows_of_each};
ghost use Rattle.lk_trigger.specs.Builds.{does_trigger, has_changed, has_passed, trigger_value, triggered};

use crate::build::Build;
use crate::watch::watched;
use lk_table::TableVersion;
use lk_types::{Datagroup, Trigger};
use lk_val::{Items, NoMemory, Value};
use std::alloc::Global;
use std::cmp::Ordering;

/// The numbers of the datagroups that trigger at a moment, in the order in which they are given; `builds` has the last build of
/// each. (Looker, LookML reference: sql_trigger, interval_trigger)
pub fn triggered(
    alloc: Global,
    datagroups: &[Datagroup],
    tables: &[TableVersion],
    builds: &[Build],
    now: i64,
) -> Result<Items<u32>, NoMemory>
    requires one_each { length builds.now ≡ length datagroups.now }
    requires in_years { IsMomentInYears now }
    ensures { IfOk result (λ numbers. numbers ≡ triggered datagroups.now (rows_of_each tables.now) builds.now now) }
{
    // A number of a datagroup has 32 bits, so there is no room for more datagroups.
    if datagroups.len() > 0xffff_ffff {
        return Err(NoMemory);
    }
    let mut numbers = Items::new(alloc);
    for number in 0..datagroups.len() {
        let triggers = does_trigger(tables, now, &builds[number], &datagroups[number]);
        add_if(&mut numbers, triggers, number as u32)?;
    }
    Ok(numbers)
}

fn add_if(numbers: &mut Items<u32>, condition: bool, number: u32) -> Result<(), NoMemory>
    ensures { OnOk result (numbers.new ≡ numbers.old ++ (if condition then number ∷ [] else [])) }
{
    if condition {
        numbers.push(number)?;
    }
    Ok(())
}

// Whether a datagroup triggers, given its last build. An interval decides alone where there is one.
fn does_trigger(tables: &[TableVersion], now: i64, build: &Build, datagroup: &Datagroup) -> bool
    requires { IsMomentInYears now }
    ensures { result ≡ does_trigger (rows_of_each tables.now) now build.now datagroup.now }
{
    match datagroup.interval {
        Some(seconds) => has_passed(seconds, build.moment, now),
        None => has_changed(tables, now, &build.value, datagroup.trigger),
    }
}

// Whether an interval has passed since a moment. The difference is taken in 128 bits, where it can't overflow, whatever the
// moments are.
fn has_passed(seconds: i64, since: i64, now: i64) -> bool
    ensures { result ≡ has_passed seconds since now }
{
    i128::from(now) - i128::from(since) >= i128::from(seconds)
}

// Whether what is watched differs from what it was.
fn has_changed(tables: &[TableVersion], now: i64, before: &Value, trigger: Option<Trigger>) -> bool
    requires { IsMomentInYears now }
    ensures { result ≡ has_changed before.now trigger (trigger_value (rows_of_each tables.now) now trigger) }
{
    match trigger {
        Some(trigger) => before.as_ref().cmp(watched(tables, now, trigger)) != Ordering::Equal,
        None => false,
    }
}
