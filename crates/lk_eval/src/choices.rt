// What CASE, COALESCE and NULLIF choose among the values of their operands.

ghost use Rattle.std.specs.Prelude.{◌≡◌, IfOk, length, map};
ghost use Rattle.lk_types.specs.Expressions.{first_known, null_if};
ghost use Rattle.lk_eval.specs.NodeValues.{first_chosen, operand};
ghost use Rattle.lk_eval.specs.Operands.{operand_value};

use crate::comparison::compared;
use crate::operand::{Operand, nth};
use crate::truth::{is_true, is_yes};
use lk_types::Comparison;
use lk_val::{NoMemory, Value};
use std::alloc::Global;

// The value behind the first condition that is true, or the last operand, where it has no condition.
pub(crate) fn first_chosen<'a>(
    alloc: Global,
    operands: &[Operand<'a>],
) -> Result<Operand<'a>, NoMemory>
    ensures { IfOk result (λ chosen. operand_value chosen ≡ first_chosen (map operand_value operands.now)) }
{
    let mut rest = operands;
    for _used in operands {
        match rest {
            [] => return Ok(Operand::Made(Value::Null)),
            [other] => return other.again(alloc),
            [condition, value, behind @ ..] => {
                if is_true(condition.value()) {
                    return value.again(alloc);
                }
                rest = behind;
            }
        }
    }
    Ok(Operand::Made(Value::Null))
}

// The first value that is not null.
pub(crate) fn first_known<'a>(
    alloc: Global,
    operands: &[Operand<'a>],
) -> Result<Operand<'a>, NoMemory>
    ensures { IfOk result (λ known. operand_value known ≡ first_known (map operand_value operands.now)) }
{
    for operand in operands {
        if !operand.value().is_null() {
            return operand.again(alloc);
        }
    }
    Ok(Operand::Made(Value::Null))
}

// Null where the two are equal, and else the first.
pub(crate) fn null_if<'a>(alloc: Global, operands: &[Operand<'a>]) -> Result<Operand<'a>, NoMemory>
    requires { length operands.now ≡ 2 }
    ensures { IfOk result (λ v. operand_value v ≡ null_if (operand (map operand_value operands.now) 0) (operand (map operand_value operands.now) 1)) }
{
    let are_equal = compared(Comparison::Equal, nth(operands, 0), nth(operands, 1));
    match operands.first() {
        Some(first) if !is_yes(are_equal) => first.again(alloc),
        _ => Ok(Operand::Made(Value::Null)),
    }
}
