ghost use Rattle.std.specs.Prelude.{◌≡◌, nat_lt};
ghost use Rattle.std.specs.List.{count_by, list_any};
ghost use Rattle.lk_scope.specs.Pieces.{IsTested};
ghost use Rattle.lk_model.specs.Counts.{counts_fault, has_many_rollups, is_persisted, is_persisted_rows, is_wide, limit_line, rollups_in};

use lk_objects::{Declared, DeclaredExplore, DeclaredView, Rows};
use lk_params::{Number, named_line};
use lk_types::{Schema, TableDef};
use lk_val::ModelFault;
use std::alloc::Global;

const MOST_FILES: u64 = 1000;

const MOST_EXPLORES: usize = 200;

const MOST_VIEWS: usize = 500;

const MOST_TABLES: usize = 64;

const MOST_COLUMNS: usize = 64;

const MOST_DATAGROUPS: usize = 8;

const MOST_ROLLUPS: usize = 12;

/// Tests how many there are of each thing (N15), given the number of files: files, explores, views, stored tables, columns of
/// one of them, datagroups, and aggregate tables together with persisted derived tables, in this order. (lookd)
pub fn test_counts(
    alloc: Global,
    files: u64,
    schema: &Schema,
    declared: &Declared,
) -> Result<(), ModelFault>
    ensures { IsTested result (counts_fault files schema.now declared.now) }
{
    let tables = schema.tables.as_slice();
    test_limit(alloc, "files", MOST_FILES < files)?;
    test_limit(alloc, "explores", MOST_EXPLORES < declared.explores.len())?;
    test_limit(alloc, "views", MOST_VIEWS < declared.views.len())?;
    test_limit(alloc, "tables", MOST_TABLES < tables.len())?;
    test_limit(alloc, "columns", has_wide(tables))?;
    test_limit(
        alloc,
        "datagroups",
        MOST_DATAGROUPS < declared.datagroups.len(),
    )?;
    test_limit(alloc, "rollups", has_many_rollups(declared))
}

fn test_limit(alloc: Global, name: &str, is_passed: bool) -> Result<(), ModelFault>
    ensures { IsTested result (limit_line name.now is_passed) }
{
    if is_passed {
        let line = named_line(alloc, Number::N15, name, "")?;
        return Err(ModelFault::Fault(line));
    }
    Ok(())
}

fn has_wide(tables: &[TableDef]) -> bool
    ensures { result ≡ list_any is_wide tables.now }
{
    for table in tables {
        if MOST_COLUMNS < table.columns.len() {
            return true;
        }
    }
    false
}

fn has_many_rollups(declared: &Declared) -> bool
    ensures { result ≡ has_many_rollups declared.now }
{
    let persisted = persisted_count(declared.views.as_slice());
    if MOST_ROLLUPS < persisted {
        return true;
    }
    has_more_rollups(MOST_ROLLUPS - persisted, declared.explores.as_slice())
}

fn persisted_count(views: &[DeclaredView]) -> usize
    ensures { result ≡ count_by is_persisted views.now }
{
    let mut count = 0usize;
    for view in views {
        if is_persisted(view) {
            count += 1;
        }
    }
    count
}

fn is_persisted(view: &DeclaredView) -> bool
    ensures { result ≡ is_persisted view.now }
{
    match &view.rows {
        Rows::Stored(_) => false,
        Rows::Derived(derived) => derived.datagroup.is_some(),
    }
}

// Whether explores have more aggregate tables than so many.
fn has_more_rollups(most: usize, explores: &[DeclaredExplore]) -> bool
    ensures { result ≡ nat_lt most (rollups_in explores.now) }
{
    let mut left = most;
    for explore in explores {
        let count = explore.rollups.len();
        if left < count {
            return true;
        }
        left -= count;
    }
    false
}
