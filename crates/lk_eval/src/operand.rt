ghost use Rattle.std.specs.Prelude.{◌≡◌, ◌<◌, IfOk, length, map};
ghost use Rattle.lk_val.specs.ValueRefs.{value_of_ref};
ghost use Rattle.lk_eval.specs.NodeValues.{operand};
ghost use Rattle.lk_eval.specs.Operands.{operand_value};

use lk_val::{NoMemory, Value, ValueRef};
use std::alloc::Global;

// The value of a part of an expression: that of a column or a literal is borrowed.
#[derive(Drop)]
pub(crate) enum Operand<'a> {
    Held(ValueRef<'a>),
    Made(Value),
}

impl<'a> Operand<'a> {
    pub(crate) fn value(&self) -> ValueRef<'_>
        ensures { value_of_ref result ≡ operand_value self.now }
    {
        match self {
            Operand::Held(v) => *v,
            Operand::Made(v) => v.as_ref(),
        }
    }

    // The same value: a borrowed one is borrowed again.
    pub(crate) fn again(&self, alloc: Global) -> Result<Operand<'a>, NoMemory>
        ensures { IfOk result (λ operand. operand_value operand ≡ operand_value self.now) }
    {
        Ok(match self {
            Operand::Held(v) => Operand::Held(*v),
            Operand::Made(v) => Operand::Made(v.copy(alloc)?),
        })
    }
}

// The value of an operand by its place.
pub(crate) fn nth<'s>(operands: &'s [Operand<'_>], place: usize) -> ValueRef<'s>
    requires { place < length operands.now }
    ensures { value_of_ref result ≡ operand (map operand_value operands.now) place }
{
    operands[place].value()
}
