ghost use Rattle.std.specs.Prelude.{◌≡◌, IfOk};
ghost use Rattle.lk_val.specs.Years.{IsMomentInYears};
ghost use Rattle.lk_table.specs.Contents.{rows_of_each};
ghost use Rattle.lk_trigger.specs.Builds.{built_at};

use crate::watch::trigger_value;
use lk_table::TableVersion;
use lk_types::Datagroup;
use lk_val::{NoMemory, Value};
use std::alloc::Global;

/// When a datagroup was built last: what its trigger watched then, the moment in seconds from 1970-01-01 00:00:00 UTC, and the
/// number of the snapshot.
#[derive(Drop)]
pub struct Build {
    pub value: Value,
    pub moment: i64,
    pub number: u64,
}

/// A datagroup as it is built over the tables of the snapshot of a number; `now` is of the years 1 to 9999.
pub fn built(
    alloc: Global,
    datagroup: &Datagroup,
    tables: &[TableVersion],
    number: u64,
    now: i64,
) -> Result<Build, NoMemory>
    requires { IsMomentInYears now }
    ensures { IfOk result (λ build. build ≡ built_at (rows_of_each tables.now) number now datagroup.now) }
{
    let value = trigger_value(tables, now, datagroup.trigger).to_value(alloc)?;
    Ok(Build {
        value,
        moment: now,
        number,
    })
}
