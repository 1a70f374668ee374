ghost use Rattle.std.specs.Prelude.{◌≡◌, IfOk};
ghost use Rattle.lk_formulas.specs.declared.columns.UnknownColumn.TheVariants as unknown_column;
ghost use Rattle.lk_formulas.specs.Resolved.{resolved_in};
ghost use Rattle.lk_scope.specs.Told.{IsTold};

use lk_fields::{Scope, Writer};
use lk_formulas::{ColumnKinds, FieldTable, ResolvedCode, UnknownColumn};
use lk_objects::{Code, DeclaredView};
use lk_types::Schema;
use lk_val::NoMemory;
use std::alloc::Global;

/// The fields of a scope with their formulas, in which a column of unknown kind is null, so that it gives no fault.
#[derive(Drop)]
pub struct ScopeFields<'a> {
    pub schema: &'a Schema,
    pub views: &'a [DeclaredView],
    pub scope: &'a Scope,
    pub columns: &'a ColumnKinds,
    pub table: &'a FieldTable,
}

impl ScopeFields<'_> {
    /// The formula of a code that stands in the text of a field or in the explore's own; null where it is no expression.
    pub fn code(&self, alloc: Global, writer: Writer, code: &Code) -> Result<ResolvedCode, NoMemory>
        requires { IsTold self.now }
        ensures { IfOk result (λ made. made ≡ resolved_in self.now.schema.now self.now.views.now self.now.scope.now self.now.columns.now unknown_column.Null writer code.now) }
    {
        self.table.code(
            alloc,
            self.schema,
            self.views,
            self.scope,
            self.columns,
            UnknownColumn::Null,
            writer,
            code,
        )
    }
}
