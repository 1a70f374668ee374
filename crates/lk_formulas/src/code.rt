ghost use Rattle.std.specs.Prelude.{◌≡◌, ◌<◌, Some, None, IfOk, List, false, length, map, nat_lt, slice_set, if◌then◌else◌};
ghost use Rattle.std.specs.List.{list_all};
ghost use Rattle.lk_types.specs.Formula.{Formula};
ghost use Rattle.lk_fields.specs.Substituted.{told_nodes};
ghost use Rattle.lk_dated.specs.Sides.{side_of};
ghost use Rattle.lk_formulas.specs.declared.columns.ColumnKinds.{ColumnKinds};
ghost use Rattle.lk_formulas.specs.declared.columns.UnknownColumn.{UnknownColumn};
ghost use Rattle.lk_formulas.specs.FormulaKinds.{kinds_at};
ghost use Rattle.lk_formulas.specs.Formulas.{null, put_in, read_in};
ghost use Rattle.lk_formulas.specs.NumberSizes.{nodes_of_code, number_nodes, told};
ghost use Rattle.lk_formulas.specs.Referents.{AreTold, formula_of_referent, is_certain_referent, kept_side_of, size_of};
ghost use Rattle.lk_formulas.specs.Resolved.{most_nodes, resolved, resolved_in};
ghost use Rattle.lk_formulas.specs.Told.{IsCodeTold};

use crate::columns::{ColumnKinds, UnknownColumn};
use crate::number_size::nodes_by;
use crate::referent::{Names, Referent, referents_of};
use crate::resolved::{ResolvedCode, ResolvedField};
use crate::stand_in::{
    are_certain, formulas_of, kept_sides_of, null, number_sizes_of, sides_of, sizes_of,
};
use lk_dated::{dated, kinds_dated};
use lk_fields::{Sort, Writer, nodes_with};
use lk_objects::Code;
use lk_types::{Expr, KindSet};
use lk_val::NoMemory;
use std::alloc::Global;

// The most nodes that an expression may have. (lookd)
const MOST_NODES: usize = 10_000;

// The formula of a code in a text, where the fields that it refers to are told.
pub(crate) fn resolved_code(
    alloc: Global,
    names: &Names,
    columns: &ColumnKinds,
    unknown: UnknownColumn,
    fields: &[Option<ResolvedField>],
    writer: Writer,
    code: &Code,
) -> Result<ResolvedCode, NoMemory>
    ensures { IsCodeTold names.now.schema.now names.now.views.now names.now.scope.now columns.now unknown names.now.places.now fields.now writer code.now
        → IfOk result (λ made. made ≡ resolved_in names.now.schema.now names.now.views.now names.now.scope.now columns.now unknown writer code.now) }
{
    match code {
        Code::Expr(written) => {
            let references = written.references.as_slice();
            let referents = referents_of(alloc, names, writer, Sort::Dimension, references)?;
            let referents = referents.as_slice();
            let expr = &written.expr;
            match written.unknown_call {
                None => resolved_with(alloc, columns, unknown, fields, referents, expr),
                Some(_) => resolved_unknown(alloc, fields, referents, expr),
            }
        }
        _ => resolved_null(alloc),
    }
}

// What is no expression is null.
pub(crate) fn resolved_null(alloc: Global) -> Result<ResolvedCode, NoMemory>
    ensures { (columns : ColumnKinds) → IfOk result (λ made. made ≡ resolved columns null null false) }
{
    Ok(ResolvedCode {
        size: 1,
        kinds: KindSet::every(),
        is_certain: false,
        expr: Some(null(alloc)?),
    })
}

// The formula of an expression with what is told of its referents put in.
fn resolved_with(
    alloc: Global,
    columns: &ColumnKinds,
    unknown: UnknownColumn,
    fields: &[Option<ResolvedField>],
    referents: &[Referent],
    expr: &Expr,
) -> Result<ResolvedCode, NoMemory>
    ensures { (by read : List Formula) → AreTold columns.now unknown fields.now referents.now by read
        → IfOk result (λ made. made
        ≡ resolved columns.now (put_in by expr.now) (read_in columns.now read expr.now) (list_all (is_certain_referent columns.now fields.now) referents.now)) }
{
    let sizes = sizes_of(alloc, fields, referents)?;
    let sides = sides_of(alloc, columns, unknown, fields, referents)?;
    let size = nodes_with(expr, sizes.as_slice());
    let kinds = kinds_dated(alloc, expr, sides.as_slice())?;
    Ok(ResolvedCode {
        size,
        kinds,
        is_certain: are_certain(columns, fields, referents),
        expr: kept(alloc, columns, unknown, fields, referents, expr, size)?,
    })
}

// The formula of an expression with an unknown call: its nodes count as those of any other, and it means null.
fn resolved_unknown(
    alloc: Global,
    fields: &[Option<ResolvedField>],
    referents: &[Referent],
    expr: &Expr,
) -> Result<ResolvedCode, NoMemory>
    ensures { (columns : ColumnKinds) (by : List Formula) → map (size_of fields.now) referents.now ≡ map told_nodes by
        → IfOk result (λ made. made ≡ resolved columns (put_in by expr.now) null false) }
{
    let sizes = sizes_of(alloc, fields, referents)?;
    null_of_size(alloc, nodes_with(expr, sizes.as_slice()))
}

// Null in place of an expression of so many nodes.
fn null_of_size(alloc: Global, size: usize) -> Result<ResolvedCode, NoMemory>
    ensures { (columns : ColumnKinds) (e : Formula) → size ≡ told_nodes e
        → IfOk result (λ made. made ≡ resolved columns e null false) }
{
    Ok(ResolvedCode {
        size,
        kinds: KindSet::every(),
        is_certain: false,
        expr: kept_null(alloc, size)?,
    })
}

// Null, where the expression has not too many nodes.
fn kept_null(alloc: Global, size: usize) -> Result<Option<Expr>, NoMemory>
    ensures { IfOk result (λ made. made ≡ (if nat_lt most_nodes size then None else Some null)) }
{
    if MOST_NODES < size {
        return Ok(None);
    }
    Ok(Some(null(alloc)?))
}

// The formula itself with its text literals read, where its size is not too large. It is made only then, since an
// expression may grow exponentially.
fn kept(
    alloc: Global,
    columns: &ColumnKinds,
    unknown: UnknownColumn,
    fields: &[Option<ResolvedField>],
    referents: &[Referent],
    expr: &Expr,
    size: usize,
) -> Result<Option<Expr>, NoMemory>
    ensures { map (kept_side_of columns.now unknown fields.now) referents.now ≡ map (side_of (kinds_at columns.now)) (map (formula_of_referent columns.now unknown fields.now) referents.now)
        → IfOk result (λ made. made ≡ (if nat_lt most_nodes size then None
        else Some (read_in columns.now (map (formula_of_referent columns.now unknown fields.now) referents.now) expr.now))) }
{
    if size > MOST_NODES {
        return Ok(None);
    }
    let sides = kept_sides_of(alloc, columns, unknown, fields, referents)?;
    let by = formulas_of(alloc, columns, unknown, fields, referents)?;
    Ok(Some(dated(alloc, expr, sides.as_slice(), by.as_slice())?))
}

// How many nodes a code has as the expression of a measure of type number, where the measures that it refers to are told.
pub(crate) fn number_size(
    alloc: Global,
    names: &Names,
    fields: &[Option<ResolvedField>],
    part: u32,
    code: &Code,
) -> Result<usize, NoMemory>
    ensures { (columns : ColumnKinds) (unknown : UnknownColumn)
        → IsCodeTold names.now.schema.now names.now.views.now names.now.scope.now columns unknown names.now.places.now fields.now (Writer.Field part) code.now
        → IfOk result (λ size. size
        ≡ told (nodes_of_code names.now.views.now names.now.scope.now (number_nodes names.now.views.now names.now.scope.now) part code.now)) }
{
    match code {
        Code::Number(written) => {
            let writer = Writer::Field(part);
            let references = written.references.as_slice();
            let referents = referents_of(alloc, names, writer, Sort::Measure, references)?;
            let sizes = number_sizes_of(alloc, fields, referents.as_slice())?;
            Ok(nodes_by(&written.expr, sizes.as_slice()))
        }
        _ => Ok(1),
    }
}

// Puts what is told of a field in its place.
pub(crate) fn put(fields: &mut [Option<ResolvedField>], number: usize, field: ResolvedField)
    requires { number < length fields.old }
    ensures { fields.new ≡ slice_set fields.old number (Some field) }
{
    fields[number] = Some(field);
}
