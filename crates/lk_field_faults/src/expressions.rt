ghost use Rattle.std.specs.Prelude.{◌≡◌, Some, None, IfOk, if◌then◌else◌};
ghost use Rattle.lk_params.specs.declared.number.Number.TheVariants.{N7};
ghost use Rattle.lk_fields.specs.Existing.{is_on_cycle};
ghost use Rattle.lk_formulas.specs.declared.columns.UnknownColumn.TheVariants as unknown_column;
ghost use Rattle.lk_formulas.specs.FieldKinds.{field_clashes};
ghost use Rattle.lk_field_faults.specs.Expressions.{expression_line, expression_number, is_key_over, is_large, is_over, number_of_formula};
ghost use Rattle.lk_scope.specs.Told.{IsTold};

use lk_fields::{Place, Writer};
use lk_formulas::UnknownColumn;
use lk_objects::{Code, DeclaredField};
use lk_params::{Number, named_line};
use lk_scope::ScopeFields;
use lk_val::{FaultLine, NoMemory};
use std::alloc::Global;

// The most nodes that an expression may have. (lookd)
const MOST_NODES: usize = 10_000;

/// The number of the first fault of a field's expression, with the fields that it refers to put in: a cycle on which it
/// stands (N7), and of one that reaches no cycle too many nodes (N15), or else a clash of kinds (E3). (Looker, LookML
/// reference: substitution operators, type; lookd)
pub fn expression_number(
    alloc: Global,
    fields: &ScopeFields,
    place: Place,
    field: &DeclaredField,
) -> Result<Option<Number>, NoMemory>
    requires { IsTold fields.now }
    ensures { IfOk result (λ number. number
        ≡ expression_number fields.now.schema.now fields.now.views.now fields.now.scope.now fields.now.columns.now place field.now) }
{
    match fields.table.field(place) {
        None => cycle_number(alloc, fields, place),
        Some(formula) => number_of_formula(alloc, fields, place, field, formula.size),
    }
}

fn cycle_number(
    alloc: Global,
    fields: &ScopeFields,
    place: Place,
) -> Result<Option<Number>, NoMemory>
    requires { IsTold fields.now }
    ensures { IfOk result (λ number. number
        ≡ (if is_on_cycle fields.now.views.now fields.now.scope.now place then Some N7 else None)) }
{
    if fields.table.is_on_cycle(alloc, place)? {
        Ok(Some(Number::N7))
    } else {
        Ok(None)
    }
}

fn number_of_formula(
    alloc: Global,
    fields: &ScopeFields,
    place: Place,
    field: &DeclaredField,
    size: usize,
) -> Result<Option<Number>, NoMemory>
    requires { IsTold fields.now }
    ensures { IfOk result (λ number. number
        ≡ number_of_formula fields.now.schema.now fields.now.views.now fields.now.scope.now fields.now.columns.now place field.now size) }
{
    if is_large(alloc, fields, place, field, size)? {
        Ok(Some(Number::N15))
    } else if clashes(alloc, fields, place, field)? {
        Ok(Some(Number::E3))
    } else {
        Ok(None)
    }
}

fn clashes(
    alloc: Global,
    fields: &ScopeFields,
    place: Place,
    field: &DeclaredField,
) -> Result<bool, NoMemory>
    requires { IsTold fields.now }
    ensures { IfOk result (λ clashes. clashes
        ≡ field_clashes fields.now.schema.now fields.now.views.now fields.now.scope.now fields.now.columns.now unknown_column.Null place field.now) }
{
    fields.table.field_clashes(
        alloc,
        fields.schema,
        fields.views,
        fields.scope,
        fields.columns,
        UnknownColumn::Null,
        place,
        field,
    )
}

// Whether a field's formula, of so many nodes, the expression of a measure of type number, or a `sql_distinct_key` has too
// many nodes.
fn is_large(
    alloc: Global,
    fields: &ScopeFields,
    place: Place,
    field: &DeclaredField,
    size: usize,
) -> Result<bool, NoMemory>
    requires { IsTold fields.now }
    ensures { IfOk result (λ large. large
        ≡ is_large fields.now.schema.now fields.now.views.now fields.now.scope.now fields.now.columns.now place field.now size) }
{
    let is_key_over = is_key_over(alloc, fields, place.part, &field.key)?;
    Ok(is_over(size) || is_over(fields.table.number_size(place)) || is_key_over)
}

fn is_over(nodes: usize) -> bool
    ensures { result ≡ is_over nodes }
{
    nodes > MOST_NODES
}

fn is_key_over(alloc: Global, fields: &ScopeFields, part: u32, key: &Code) -> Result<bool, NoMemory>
    requires { IsTold fields.now }
    ensures { IfOk result (λ over. over
        ≡ is_key_over fields.now.schema.now fields.now.views.now fields.now.scope.now fields.now.columns.now part key.now) }
{
    match key {
        Code::Expr(_) => {
            let made = fields.code(alloc, Writer::Field(part), key)?;
            Ok(is_over(made.size))
        }
        _ => Ok(false),
    }
}

/// The line of a fault of an expression: too many nodes name the limit, and any other the object.
pub fn expression_line(alloc: Global, object: &str, number: Number) -> Result<FaultLine, NoMemory>
    ensures { IfOk result (λ line. line ≡ expression_line object.now number) }
{
    match number {
        Number::N15 => named_line(alloc, number, "nodes", ""),
        _ => named_line(alloc, number, object, ""),
    }
}
