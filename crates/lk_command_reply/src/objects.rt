// JSON objects, made member by member, and the text of a value.

ghost use Rattle.std.specs.Prelude.{◌≡◌, IfOk, IsOkAnd, OnOk, false};
ghost use Rattle.serde_json.specs.Data.{number, object, put as with_member, string, unsigned};
ghost use Rattle.serde_json.specs.View.{members_view, view};
ghost use Rattle.serde_json.specs.Written.{compact_text, has_float};

use lk_val::{Bytes, NoMemory};
use serde_json::{Map, Value, put};
use std::alloc::{AllocError, Global};

/// Puts a text into an object.
pub(crate) fn put_text(
    alloc: Global,
    members: &mut Map<String, Value>,
    key: &str,
    text: &str,
) -> Result<(), AllocError>
    ensures { OnOk result (members_view members.new.entries
        ≡ with_member key.now (string text.now) (members_view members.old.entries)) }
{
    put(members, alloc, key, Value::try_from_str(alloc, text)?)
}

/// Puts a number into an object.
pub(crate) fn put_number(
    alloc: Global,
    members: &mut Map<String, Value>,
    key: &str,
    count: u64,
) -> Result<(), AllocError>
    ensures { OnOk result (members_view members.new.entries
        ≡ with_member key.now (number (unsigned count)) (members_view members.old.entries)) }
{
    put(members, alloc, key, Value::from(count))
}

/// The object of these members, unless one of them was not put.
pub(crate) fn object_of(
    members: Map<String, Value>,
    put: Result<(), AllocError>,
) -> Result<Value, NoMemory>
    ensures { IfOk result (λ value. IsOkAnd put (λ _. view value ≡ object (members_view members.entries))) }
{
    put?;
    Ok(Value::Object(members))
}

/// The text of a value, if it was made.
pub(crate) fn text_of(alloc: Global, value: Result<Value, NoMemory>) -> Result<Bytes, NoMemory>
    ensures { IfOk result (λ text. IsOkAnd value (λ made.
        has_float (view made) ≡ false → text ≡ compact_text (view made))) }
{
    let value = value?;
    printed(alloc, &value)
}

/// The text of a value.
pub(crate) fn printed(alloc: Global, value: &Value) -> Result<Bytes, NoMemory>
    ensures { IfOk result (λ text. has_float (view value.now) ≡ false → text ≡ compact_text (view value.now)) }
{
    let text = value.to_string(alloc)?;
    Ok(Bytes::from_slice(alloc, text.as_bytes())?)
}
