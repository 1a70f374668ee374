ghost use Rattle.std.specs.Prelude.{◌≡◌, IfOk};
ghost use Rattle.lk_formulas.specs.Formulas.{null};
ghost use Rattle.lk_resolved.specs.Formulas.{or_null};

use lk_dated::{Side, readings_of};
use lk_eval::kinds_framed;
use lk_fields::{Found, Place, Writer};
use lk_formulas::{FieldTable, UnknownColumn};
use lk_objects::Code;
use lk_scope::ScopeFields;
use lk_types::{Expr, KindSet, Node};
use lk_val::{NoMemory, Value};
use std::alloc::Global;

/// The fields of an explore with the formulas that stand in a model: a column of unknown kind stays a column.
#[derive(Drop)]
pub struct ModelFields<'a> {
    pub fields: &'a ScopeFields<'a>,
    pub kept: &'a FieldTable,
}

impl ModelFields<'_> {
    ghost use Rattle.std.specs.Prelude.{◌≡◌, IfOk};
    ghost use Rattle.lk_formulas.specs.FormulaKinds.{kinds_in};
    ghost use Rattle.lk_resolved.specs.Formulas.{code_formula, field_formula};
    ghost use Rattle.lk_resolved.specs.Explores.{found_formula};
    ghost use Rattle.lk_resolved.specs.Told.{IsModelTold};

    // The formula of a field, of a dimension group without a timeframe.
    pub(crate) fn field(&self, alloc: Global, place: Place) -> Result<Expr, NoMemory>
        requires told { IsModelTold self.now }
        ensures { IfOk result (λ e. e ≡ field_formula self.now.fields.now.schema.now self.now.fields.now.views.now self.now.fields.now.scope.now self.now.fields.now.columns.now place) }
    {
        match self.kept.field(place) {
            None => null(alloc),
            Some(code) => copy_or_null(alloc, &code.expr),
        }
    }

    // The formula of a code in the text of a field, or in the explore's own.
    pub(crate) fn code(&self, alloc: Global, writer: Writer, code: &Code) -> Result<Expr, NoMemory>
        requires told { IsModelTold self.now }
        ensures { IfOk result (λ e. e ≡ code_formula self.now.fields.now.schema.now self.now.fields.now.views.now self.now.fields.now.scope.now self.now.fields.now.columns.now writer code.now) }
    {
        let fields = self.fields;
        let made = self.kept.code(
            alloc,
            fields.schema,
            fields.views,
            fields.scope,
            fields.columns,
            UnknownColumn::Kept,
            writer,
            code,
        )?;
        or_null(alloc, made.expr)
    }

    // The formula of a field, and its kinds.
    pub(crate) fn told_field(&self, alloc: Global, place: Place) -> Result<Told, NoMemory>
        requires told { IsModelTold self.now }
        ensures formula { IfOk result (λ told. told.e ≡ field_formula self.now.fields.now.schema.now self.now.fields.now.views.now self.now.fields.now.scope.now self.now.fields.now.columns.now place) }
        ensures kinds { IfOk result (λ told. told.kinds ≡ kinds_in self.now.fields.now.columns.now told.e) }
    {
        Ok(Told {
            kinds: self.field_kinds(place),
            e: self.field(alloc, place)?,
        })
    }

    fn field_kinds(&self, place: Place) -> KindSet
        requires told { IsModelTold self.now }
        ensures { result ≡ kinds_in self.now.fields.now.columns.now (field_formula self.now.fields.now.schema.now self.now.fields.now.views.now self.now.fields.now.scope.now self.now.fields.now.columns.now place) }
    {
        match self.kept.field(place) {
            Some(code) => match code.expr {
                Some(_) => code.kinds,
                None => KindSet::every(),
            },
            None => KindSet::every(),
        }
    }

    // The formula of what a name means, with its timeframe, and its kinds.
    pub(crate) fn told_found(&self, alloc: Global, found: Found) -> Result<Told, NoMemory>
        requires told { IsModelTold self.now }
        ensures formula { IfOk result (λ told. told.e ≡ found_formula self.now.fields.now.schema.now self.now.fields.now.views.now self.now.fields.now.scope.now self.now.fields.now.columns.now found) }
        ensures kinds { IfOk result (λ told. told.kinds ≡ kinds_in self.now.fields.now.columns.now told.e) }
    {
        let told = self.told_field(alloc, found.place)?;
        match found.frame {
            None => Ok(told),
            Some(frame) => Ok(Told {
                kinds: kinds_framed(frame, told.kinds),
                e: Expr::unary(Node::Framed(frame), told.e)?,
            }),
        }
    }
}

// A formula and its kinds.
#[derive(Drop)]
pub(crate) struct Told {
    pub(crate) e: Expr,
    pub(crate) kinds: KindSet,
}

impl Told {
    ghost use Rattle.std.specs.Prelude.{◌≡◌};
    ghost use Rattle.lk_dated.specs.Sides.{readings_of};

    // What is told of it as a side of a comparison.
    pub(crate) fn side(&self) -> Side
        ensures kinds { result.kinds ≡ self.now.kinds }
        ensures literal { result.literal ≡ readings_of self.now.e }
    {
        Side {
            kinds: self.kinds,
            literal: readings_of(&self.e),
        }
    }
}

fn null(alloc: Global) -> Result<Expr, NoMemory>
    ensures { IfOk result (λ e. e ≡ null) }
{
    Expr::leaf(alloc, Node::Literal(Value::Null))
}

fn copy_or_null(alloc: Global, e: &Option<Expr>) -> Result<Expr, NoMemory>
    ensures { IfOk result (λ copied. copied ≡ or_null e.now) }
{
    match e {
        None => null(alloc),
        Some(e) => e.copy(alloc),
    }
}

fn or_null(alloc: Global, e: Option<Expr>) -> Result<Expr, NoMemory>
    ensures { IfOk result (λ made. made ≡ or_null e) }
{
    match e {
        None => null(alloc),
        Some(e) => Ok(e),
    }
}
