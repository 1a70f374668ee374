ghost use Rattle.std.specs.Prelude.{◌≡◌, IfOk, ◌+◌, ◌+ℤ◌};
ghost use Rattle.lk_types.specs.declared.explore.Op.TheVariants.{Count};
ghost use Rattle.lk_agg.specs.Finishing.{counted, part_of, summed, twice_in, twice_of};

use crate::columns::Column;
use crate::kept::Kept;
use crate::parts::{Part, no_partial};
use lk_types::{Op, Partial};
use lk_val::{NoMemory, Value};
use std::alloc::Global;

// The parts of what a group keeps for a measure, and the first key that stands with two values.
#[tactic(auto, using(crate::proofs::KeptLaws::values_exact))]
pub(crate) fn finish_column(
    alloc: Global,
    column: Column,
) -> Result<(Part, Option<Value>), NoMemory>
    ensures { IfOk result (λ finished. finished ≡ (part_of column, twice_of column)) }
{
    match column {
        Column::Count(kept) => counted(alloc, kept),
        Column::Sum(kept) => summed(alloc, Op::Sum, kept),
        Column::SumDistinct(kept) => summed(alloc, Op::SumDistinct, kept),
        Column::Average(kept) => summed(alloc, Op::Average, kept),
        Column::AverageDistinct(kept) => summed(alloc, Op::AverageDistinct, kept),
        Column::Different(values) => {
            let distinct = values.into_ascending().len() as u64;
            let parts = Partial {
                distinct,
                ..no_partial()
            };
            Ok((part(Op::CountDistinct, parts), None))
        }
        Column::Least(least) => {
            let parts = Partial {
                least,
                ..no_partial()
            };
            Ok((part(Op::Min, parts), None))
        }
        Column::Greatest(most) => {
            let parts = Partial {
                most,
                ..no_partial()
            };
            Ok((part(Op::Max, parts), None))
        }
        Column::Nothing => Ok((part(Op::Number, no_partial()), None)),
    }
}

fn part(op: Op, parts: Partial) -> Part
    ensures { result ≡ record { op = op; parts = parts } }
{
    Part { op, parts }
}

// The number of the pairs and of the tallied rows.
fn counted(alloc: Global, kept: Kept) -> Result<(Part, Option<Value>), NoMemory>
    ensures { IfOk result (λ finished. finished
        ≡ (record { op = Count; parts = counted kept }, twice_in kept.pairs)) }
{
    let (digest, tally) = kept.digest(alloc)?;
    let count = together(digest.count, tally.rows())?;
    let parts = Partial {
        count,
        ..no_partial()
    };
    Ok((part(Op::Count, parts), digest.twice))
}

// The sum of their values, and how many of these are not null.
fn summed(alloc: Global, op: Op, kept: Kept) -> Result<(Part, Option<Value>), NoMemory>
    ensures { IfOk result (λ finished. finished
        ≡ (record { op = op; parts = summed kept }, twice_in kept.pairs)) }
{
    let (digest, tally) = kept.digest(alloc)?;
    let sum = sum_of(digest.sum, tally.sum())?;
    let values = together(digest.values, tally.values())?;
    let parts = Partial {
        sum,
        values,
        ..no_partial()
    };
    Ok((part(op, parts), digest.twice))
}

// Two counts together. No run counts past 64 bits.
fn together(a: u64, b: u64) -> Result<u64, NoMemory>
    ensures { IfOk result (λ sum. sum ≡ a + b) }
{
    match a.checked_add(b) {
        Some(sum) => Ok(sum),
        None => Err(NoMemory),
    }
}

// Two sums together. No run sums past 128 bits.
fn sum_of(a: i128, b: i128) -> Result<i128, NoMemory>
    ensures { IfOk result (λ sum. sum ≡ a +ℤ b) }
{
    match a.checked_add(b) {
        Some(sum) => Ok(sum),
        None => Err(NoMemory),
    }
}
