ghost use Rattle.std.specs.Prelude.{◌≡◌, ◌++◌, IfOk, map, option_map, Some, None, slice_index_or};
ghost use Rattle.std.specs.List.{list_all};
ghost use Rattle.lk_types.specs.Kinds.{kinds_of_column};
ghost use Rattle.lk_formulas.specs.Formulas.{column_formula, framed, null};
ghost use Rattle.lk_formulas.specs.Referents.{code_numbered, column_kinds, field_numbered, formula_framed, formula_of_referent, formula_through, is_certain_referent, is_certain_through, kept_side_of, kept_side_through, number_size_of, readings_kept, side_framed, side_if, side_of_code, side_of_referent, side_through, size_framed, size_of, size_through};

use crate::columns::{ColumnKinds, UnknownColumn, known_kind};
use crate::referent::Referent;
use crate::resolved::{ResolvedCode, ResolvedField};
use lk_dated::{Readings, Side, readings_of};
use lk_eval::kinds_framed;
use lk_types::{Expr, Frame, Kind, KindSet, Node};
use lk_val::{Items, NoMemory, Value};
use std::alloc::Global;

// The field of a number, where it is there.
pub(crate) fn field_numbered(
    fields: &[Option<ResolvedField>],
    number: usize,
) -> Option<&ResolvedField>
    ensures { option_map (λ field. field.now) result ≡ field_numbered fields.now number }
{
    match fields.get(number) {
        Some(Some(field)) => Some(field),
        _ => None,
    }
}

pub(crate) fn code_numbered(
    fields: &[Option<ResolvedField>],
    number: usize,
) -> Option<&ResolvedCode>
    ensures { option_map (λ code. code.now) result ≡ code_numbered fields.now number }
{
    match field_numbered(fields, number) {
        Some(field) => Some(&field.code),
        None => None,
    }
}

// How many nodes stand for each referent.
pub(crate) fn sizes_of(
    alloc: Global,
    fields: &[Option<ResolvedField>],
    referents: &[Referent],
) -> Result<Items<usize>, NoMemory>
    ensures { IfOk result (λ sizes. sizes ≡ map (size_of fields.now) referents.now) }
{
    let mut sizes = Items::new(alloc);
    for referent in referents {
        sizes.push(size_of(fields, *referent))?;
    }
    Ok(sizes)
}

fn size_of(fields: &[Option<ResolvedField>], referent: Referent) -> usize
    ensures { result ≡ size_of fields.now referent }
{
    match referent {
        Referent::Field(number, frame) => size_through(frame, code_numbered(fields, number)),
        Referent::Nothing | Referent::Column(_, _) => 1,
    }
}

fn size_through(frame: Option<Frame>, code: Option<&ResolvedCode>) -> usize
    ensures { result ≡ size_through frame (option_map (λ c. c.now) code.entry) }
{
    match (code, frame) {
        (None, _) => 1,
        (Some(code), None) => code.size,
        // A timeframe is one node more.
        (Some(code), Some(_)) => code.size.saturating_add(1),
    }
}

// What is told of what stands for each referent, as a side of a comparison.
pub(crate) fn sides_of(
    alloc: Global,
    columns: &ColumnKinds,
    unknown: UnknownColumn,
    fields: &[Option<ResolvedField>],
    referents: &[Referent],
) -> Result<Items<Side>, NoMemory>
    ensures { IfOk result (λ sides. sides ≡ map (side_of_referent columns.now unknown fields.now) referents.now) }
{
    let mut sides = Items::new(alloc);
    for referent in referents {
        sides.push(side_of_referent(columns, unknown, fields, *referent))?;
    }
    Ok(sides)
}

fn side_of_referent(
    columns: &ColumnKinds,
    unknown: UnknownColumn,
    fields: &[Option<ResolvedField>],
    referent: Referent,
) -> Side
    ensures { result ≡ side_of_referent columns.now unknown fields.now referent }
{
    match referent {
        Referent::Nothing => Side::null(),
        Referent::Column(part, column) => {
            Side::no_literal(column_kinds(unknown, known_kind(columns, part, column)))
        }
        Referent::Field(number, frame) => side_through(frame, code_numbered(fields, number)),
    }
}

fn column_kinds(unknown: UnknownColumn, kind: Option<Kind>) -> KindSet
    ensures { result ≡ column_kinds unknown kind }
{
    match (unknown, kind) {
        (_, Some(kind)) => KindSet::only(kind),
        (UnknownColumn::Null, None) => KindSet::every(),
        (UnknownColumn::Kept, None) => KindSet::none(),
    }
}

/// What is told of the formula of a field with a timeframe as a side of a comparison; of a field without a formula, null. (lookd)
pub fn side_through(frame: Option<Frame>, code: Option<&ResolvedCode>) -> Side
    ensures { result ≡ side_through frame (option_map (λ c. c.now) code.entry) }
{
    match code {
        None => Side::null(),
        Some(code) => side_framed(frame, side_of_code(code)),
    }
}

fn side_framed(frame: Option<Frame>, side: Side) -> Side
    ensures { result ≡ side_framed frame side }
{
    match frame {
        None => side,
        Some(frame) => Side::no_literal(kinds_framed(frame, side.kinds)),
    }
}

fn side_of_code(code: &ResolvedCode) -> Side
    ensures { result ≡ side_of_code code.now }
{
    Side {
        kinds: code.kinds,
        literal: readings_kept(&code.expr),
    }
}

// A formula that is too large to be kept is no text literal.
fn readings_kept(expr: &Option<Expr>) -> Option<Readings>
    ensures { result ≡ readings_kept expr.now }
{
    match expr {
        None => None,
        Some(expr) => readings_of(expr),
    }
}

// The same of what stands for each referent in a formula: null in place of one that is too large to be kept.
pub(crate) fn kept_sides_of(
    alloc: Global,
    columns: &ColumnKinds,
    unknown: UnknownColumn,
    fields: &[Option<ResolvedField>],
    referents: &[Referent],
) -> Result<Items<Side>, NoMemory>
    ensures { IfOk result (λ sides. sides ≡ map (kept_side_of columns.now unknown fields.now) referents.now) }
{
    let mut sides = Items::new(alloc);
    for referent in referents {
        sides.push(kept_side_of(columns, unknown, fields, *referent))?;
    }
    Ok(sides)
}

fn kept_side_of(
    columns: &ColumnKinds,
    unknown: UnknownColumn,
    fields: &[Option<ResolvedField>],
    referent: Referent,
) -> Side
    ensures { result ≡ kept_side_of columns.now unknown fields.now referent }
{
    match referent {
        Referent::Field(number, frame) => kept_side_through(frame, code_numbered(fields, number)),
        Referent::Nothing | Referent::Column(_, _) => {
            side_of_referent(columns, unknown, fields, referent)
        }
    }
}

fn kept_side_through(frame: Option<Frame>, code: Option<&ResolvedCode>) -> Side
    ensures { result ≡ kept_side_through frame (option_map (λ c. c.now) code.entry) }
{
    match code {
        None => Side::null(),
        Some(code) => side_if(&code.expr, side_framed(frame, side_of_code(code))),
    }
}

fn side_if(expr: &Option<Expr>, side: Side) -> Side
    ensures { result ≡ side_if expr.now side }
{
    match expr {
        None => Side::null(),
        Some(_) => side,
    }
}

// Whether all that stands for the referents is known.
pub(crate) fn are_certain(
    columns: &ColumnKinds,
    fields: &[Option<ResolvedField>],
    referents: &[Referent],
) -> bool
    ensures { result ≡ list_all (is_certain_referent columns.now fields.now) referents.now }
{
    for referent in referents {
        if !is_certain_referent(columns, fields, *referent) {
            return false;
        }
    }
    true
}

fn is_certain_referent(
    columns: &ColumnKinds,
    fields: &[Option<ResolvedField>],
    referent: Referent,
) -> bool
    ensures { result ≡ is_certain_referent columns.now fields.now referent }
{
    match referent {
        Referent::Nothing => false,
        Referent::Column(part, column) => known_kind(columns, part, column).is_some(),
        Referent::Field(number, _) => is_certain_through(code_numbered(fields, number)),
    }
}

fn is_certain_through(code: Option<&ResolvedCode>) -> bool
    ensures { result ≡ is_certain_through (option_map (λ c. c.now) code.entry) }
{
    match code {
        None => false,
        Some(code) => code.is_certain,
    }
}

// What stands for each referent: null in place of a formula that is too large to be kept.
pub(crate) fn formulas_of(
    alloc: Global,
    columns: &ColumnKinds,
    unknown: UnknownColumn,
    fields: &[Option<ResolvedField>],
    referents: &[Referent],
) -> Result<Items<Expr>, NoMemory>
    ensures { IfOk result (λ formulas. formulas ≡ map (formula_of_referent columns.now unknown fields.now) referents.now) }
{
    let mut formulas = Items::new(alloc);
    for referent in referents {
        formulas.push(formula_of_referent(alloc, columns, unknown, fields, *referent)?)?;
    }
    Ok(formulas)
}

fn formula_of_referent(
    alloc: Global,
    columns: &ColumnKinds,
    unknown: UnknownColumn,
    fields: &[Option<ResolvedField>],
    referent: Referent,
) -> Result<Expr, NoMemory>
    ensures { IfOk result (λ e. e ≡ formula_of_referent columns.now unknown fields.now referent) }
{
    match referent {
        Referent::Nothing => null(alloc),
        Referent::Column(part, column) => {
            let kind = known_kind(columns, part, column);
            column_formula(alloc, unknown, kind, part, column)
        }
        Referent::Field(number, frame) => {
            formula_through(alloc, frame, code_numbered(fields, number))
        }
    }
}

// Null as an expression.
pub(crate) fn null(alloc: Global) -> Result<Expr, NoMemory>
    ensures { IfOk result (λ e. e ≡ null) }
{
    Expr::leaf(alloc, Node::Literal(Value::Null))
}

fn column_formula(
    alloc: Global,
    unknown: UnknownColumn,
    kind: Option<Kind>,
    part: u32,
    column: u32,
) -> Result<Expr, NoMemory>
    ensures { IfOk result (λ e. e ≡ column_formula unknown kind part column) }
{
    match (unknown, kind) {
        (UnknownColumn::Null, None) => null(alloc),
        (UnknownColumn::Null, Some(_)) | (UnknownColumn::Kept, _) => {
            Expr::leaf(alloc, Node::Column(part, column))
        }
    }
}

fn formula_through(
    alloc: Global,
    frame: Option<Frame>,
    code: Option<&ResolvedCode>,
) -> Result<Expr, NoMemory>
    ensures { IfOk result (λ e. e ≡ formula_through frame (option_map (λ c. c.now) code.entry)) }
{
    match code {
        None => null(alloc),
        Some(code) => formula_framed(alloc, frame, &code.expr),
    }
}

fn formula_framed(
    alloc: Global,
    frame: Option<Frame>,
    expr: &Option<Expr>,
) -> Result<Expr, NoMemory>
    ensures { IfOk result (λ e. e ≡ formula_framed frame expr.now) }
{
    match expr {
        None => null(alloc),
        Some(expr) => framed(frame, expr.copy(alloc)?),
    }
}

fn framed(frame: Option<Frame>, expr: Expr) -> Result<Expr, NoMemory>
    ensures { IfOk result (λ e. e ≡ framed frame expr) }
{
    match frame {
        None => Ok(expr),
        Some(frame) => Expr::unary(Node::Framed(frame), expr),
    }
}

// How many nodes stand for each measure of type number.
pub(crate) fn number_sizes_of(
    alloc: Global,
    fields: &[Option<ResolvedField>],
    referents: &[Referent],
) -> Result<Items<usize>, NoMemory>
    ensures { IfOk result (λ sizes. sizes ≡ map (number_size_of fields.now) referents.now) }
{
    let mut sizes = Items::new(alloc);
    for referent in referents {
        sizes.push(number_size_of(fields, *referent))?;
    }
    Ok(sizes)
}

fn number_size_of(fields: &[Option<ResolvedField>], referent: Referent) -> usize
    ensures { result ≡ number_size_of fields.now referent }
{
    match referent {
        Referent::Field(number, _) => match field_numbered(fields, number) {
            None => 1,
            Some(field) => field.number_size,
        },
        Referent::Nothing | Referent::Column(_, _) => 1,
    }
}
