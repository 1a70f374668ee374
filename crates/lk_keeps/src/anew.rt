// Builds of datagroups, all or some.

ghost use Rattle.std.specs.Prelude.{◌≡◌, true};
ghost use Rattle.lk_val.specs.Memory.{IsUnlessMemory};
ghost use Rattle.lk_types.specs.Tables.{are_valid_tables};
ghost use Rattle.lk_semantics.specs.Resolved.{IsResolved};
ghost use Rattle.lk_table.specs.Contents.{rows_of_each};
ghost use Rattle.lk_rollup.specs.Builds.{is_no_memory};
ghost use Rattle.lk_fill.specs.Orders.{IsDeriveOrder};
ghost use Rattle.lk_keeps.specs.Anew.{all_kept, kept_anew};

use crate::keeps::Keeps;
use crate::laws::all_built_anew_are_whole;
use crate::making::Making;
use crate::numbers::numbers_below;
use crate::wanted::wanted_by;
use lk_fill::fill;
use lk_rollup::BuildFault;
use lk_table::TableVersion;
use lk_types::Model;
use std::alloc::Global;

/// All datagroups built over these tables. `order` is one in which the model's derived tables can be made. The first build that
/// has more than 1,000,000 cells is refused by name: derived tables come first, then aggregate tables by explore (G2). (Looker,
/// LookML reference: datagroup_trigger)
pub fn keep_all(
    alloc: Global,
    m: &Model,
    order: &[u32],
    tables: &[TableVersion],
) -> Result<Keeps, BuildFault>
    requires model { IsResolved m.now }
    requires order { IsDeriveOrder m.now order.now }
    requires tables { are_valid_tables m.now.schema.tables (rows_of_each tables.now) ≡ true }
    ensures { IsUnlessMemory is_no_memory result (all_kept m.now (rows_of_each tables.now)) }
{
    all_built_anew_are_whole();
    let groups = numbers_below(alloc, m.datagroups.len())?;
    let keeps = Keeps::none(alloc);
    keep_anew(alloc, m, order, tables, groups.as_slice(), &keeps)
}

/// What was kept, with some datagroups built anew, all over the same tables; what is kept of the others is shared. A build that is
/// too large is refused as above (G2). (Looker, LookML reference: datagroup_trigger)
pub fn keep_anew(
    alloc: Global,
    m: &Model,
    order: &[u32],
    tables: &[TableVersion],
    groups: &[u32],
    keeps: &Keeps,
) -> Result<Keeps, BuildFault>
    requires model { IsResolved m.now }
    requires order { IsDeriveOrder m.now order.now }
    requires tables { are_valid_tables m.now.schema.tables (rows_of_each tables.now) ≡ true }
    ensures { IsUnlessMemory is_no_memory result (kept_anew m.now groups.now (rows_of_each tables.now) keeps.now) }
{
    let wanted = wanted_by(alloc, m, groups)?;
    let set = fill(alloc, m, order, tables, &[], wanted.as_slice())?;
    let making = Making {
        model: m,
        groups,
        set: &set,
        keeps,
    };
    making.kept(alloc, tables)
}
