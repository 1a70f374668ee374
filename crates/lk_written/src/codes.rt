ghost use Rattle.std.specs.Prelude.{IfOk, option_map};
ghost use Rattle.lk_expr_place.specs.declared.judging.Grammar.TheVariants.{Expressions, Measures};
ghost use Rattle.lk_written.specs.Codes.{IsCode, IsLiquidOr, IsReading, grammar_of};
ghost use Rattle.lk_params.specs.Known.{holds_liquid};

use crate::measure::written_number_of;
use crate::skeleton::written_of;
use lk_expr_place::{Grammar, fault_place};
use lk_expr_text::{parse_expr, parse_measure};
use lk_objects::Code;
use lk_params::holds_liquid;
use lk_val::NoMemory;
use std::alloc::Global;

/// What the code of a parameter says, over measures (the `sql` of a measure of type number) or over columns and fields; the
/// text is none where the parameter is missing. A name of the text stands in the expression as the number that it has from
/// the left. (Looker, LookML reference: sql, sql_distinct_key, sql_on, sql_always_where; lookd)
pub fn read_code(alloc: Global, over_measures: bool, text: Option<&str>) -> Result<Code, NoMemory>
    ensures { IfOk result (IsCode over_measures (option_map (λ t. t.now) text.entry)) }
{
    match text {
        None => Ok(Code::Absent),
        Some(text) => read_text(alloc, over_measures, text),
    }
}

fn read_text(alloc: Global, over_measures: bool, text: &str) -> Result<Code, NoMemory>
    ensures { IfOk result (IsLiquidOr (holds_liquid text.now) (grammar_of over_measures) text.now) }
{
    let bytes = text.as_bytes();
    if holds_liquid(bytes) {
        return Ok(Code::Liquid);
    }
    if over_measures {
        read_over_measures(alloc, bytes)
    } else {
        read_over_columns(alloc, bytes)
    }
}

fn read_over_columns(alloc: Global, text: &[u8]) -> Result<Code, NoMemory>
    ensures { IfOk result (IsReading Expressions text.now) }
{
    match parse_expr(alloc, text)? {
        Some(e) => Ok(Code::Expr(written_of(alloc, &e)?)),
        None => Ok(Code::Syntax(fault_place(alloc, Grammar::Expressions, text)?)),
    }
}

fn read_over_measures(alloc: Global, text: &[u8]) -> Result<Code, NoMemory>
    ensures { IfOk result (IsReading Measures text.now) }
{
    match parse_measure(alloc, text)? {
        Some(e) => Ok(Code::Number(written_number_of(alloc, &e)?)),
        None => Ok(Code::Syntax(fault_place(alloc, Grammar::Measures, text)?)),
    }
}
