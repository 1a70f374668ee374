ghost use Rattle.std.specs.Prelude.{◌≡◌, ◌++◌, IfOk, length, map, nat_le, if◌then◌else◌};
ghost use Rattle.lk_val.specs.ValueRefs.{value_of_ref};
ghost use Rattle.lk_val.specs.declared.value.Value.TheVariants as value;
ghost use Rattle.lk_types.specs.Expressions.{ascii_lower, ascii_upper, joined_text, on_text};

use lk_val::{NoMemory, Text, Value, ValueRef};
use std::alloc::Global;

// The most bytes of a text that `||` gives.
const LONGEST: usize = 4_096;

// Two texts as one; null for other values, and where it is too long.
pub(crate) fn joined_text(
    alloc: Global,
    a: ValueRef<'_>,
    b: ValueRef<'_>,
) -> Result<Value, NoMemory>
    ensures { IfOk result (λ joined. joined ≡ joined_text (value_of_ref a.entry) (value_of_ref b.entry)) }
{
    match (a, b) {
        (ValueRef::Text(a), ValueRef::Text(b)) => joined(alloc, a, b),
        _ => Ok(Value::Null),
    }
}

// A text with its letters of ASCII in lower case; null for other values.
pub(crate) fn lower_text(alloc: Global, v: ValueRef<'_>) -> Result<Value, NoMemory>
    ensures { IfOk result (λ lower. lower ≡ on_text (map ascii_lower) (value_of_ref v.entry)) }
{
    match v {
        ValueRef::Text(text) => Ok(Value::Text(lowered(alloc, text)?)),
        _ => Ok(Value::Null),
    }
}

// A text with its letters of ASCII in upper case; null for other values.
pub(crate) fn upper_text(alloc: Global, v: ValueRef<'_>) -> Result<Value, NoMemory>
    ensures { IfOk result (λ upper. upper ≡ on_text (map ascii_upper) (value_of_ref v.entry)) }
{
    match v {
        ValueRef::Text(text) => Ok(Value::Text(uppered(alloc, text)?)),
        _ => Ok(Value::Null),
    }
}

fn joined(alloc: Global, a: &str, b: &str) -> Result<Value, NoMemory>
    ensures { IfOk result (λ v. v ≡ (if nat_le (length (a.now ++ b.now)) 4096 then value.Text (a.now ++ b.now) else value.Null)) }
{
    if a.len() > LONGEST || b.len() > LONGEST - a.len() {
        return Ok(Value::Null);
    }
    let mut both = String::from_str(alloc, a)?;
    both.push_str(b)?;
    Ok(Value::Text(Text::from_string(both)))
}

#[tactic(auto, using(crate::proofs::LetterLaws::lower_letters))]
fn lowered(alloc: Global, text: &str) -> Result<Text, NoMemory>
    ensures { IfOk result (λ lower. lower ≡ map ascii_lower text.now) }
{
    Ok(Text::from_string(text.to_ascii_lowercase(alloc)?))
}

#[tactic(auto, using(crate::proofs::LetterLaws::upper_letters))]
fn uppered(alloc: Global, text: &str) -> Result<Text, NoMemory>
    ensures { IfOk result (λ upper. upper ≡ map ascii_upper text.now) }
{
    Ok(Text::from_string(text.to_ascii_uppercase(alloc)?))
}
