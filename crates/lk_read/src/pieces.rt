ghost use Rattle.std.specs.Prelude.{◌≡◌, ◌++◌, ◌∷◌, [], IfOk};
ghost use Rattle.lk_read.specs.Built.{with_lines};
ghost use Rattle.lk_read.specs.Grammar.{unescaped};
ghost use Rattle.lk_read.specs.Reading.{with_entry};
ghost use Rattle.lk_read.specs.EntryOutline.{entry_of};
ghost use Rattle.lk_read.specs.TreeOutline.{item_lines};

use crate::builder::Builder;
use crate::phase::{OpenList, Param};
use crate::tree::{Entry, Item, Node};
use lk_val::{Bytes, NoMemory, Text};
use std::alloc::Global;

/// The tree with one more parameter.
pub(crate) fn with_value(builder: Builder, param: Param, value: Node) -> Result<Builder, NoMemory>
    ensures { IfOk result (λ made.
        made ≡ with_lines builder (item_lines param.name param.place value)) }
{
    let Param { name, place } = param;
    builder.with_item(Item { name, value, place })
}

pub(crate) fn with_entry(list: OpenList, entry: Entry) -> Result<OpenList, NoMemory>
    ensures { IfOk result (λ made. made ≡ with_entry list (entry_of entry)) }
{
    let OpenList { bracket, entries } = list;
    let entries = entries.with(entry)?;
    Ok(OpenList { bracket, entries })
}

pub(crate) fn one_byte(alloc: Global, byte: u8) -> Result<Bytes, NoMemory>
    ensures { IfOk result (λ made. made ≡ byte ∷ []) }
{
    Bytes::from_slice(alloc, &[byte])
}

pub(crate) fn with_byte(bytes: Bytes, byte: u8) -> Result<Bytes, NoMemory>
    ensures { IfOk result (λ made. made ≡ bytes ++ byte ∷ []) }
{
    with_bytes(bytes, &[byte])
}

pub(crate) fn with_bytes(bytes: Bytes, more: &[u8]) -> Result<Bytes, NoMemory>
    ensures { IfOk result (λ made. made ≡ bytes ++ more.now) }
{
    let mut bytes = bytes;
    bytes.append(more)?;
    Ok(bytes)
}

/// With what a backslash and the byte stand for.
pub(crate) fn with_escape(bytes: Bytes, byte: u8) -> Result<Bytes, NoMemory>
    ensures { IfOk result (λ made. made ≡ bytes ++ unescaped byte) }
{
    if byte == b'"' || byte == b'\\' {
        with_bytes(bytes, &[byte])
    } else {
        with_bytes(bytes, &[b'\\', byte])
    }
}

/// The bytes as a text. They passed the table of UTF-8, byte by byte, so there is always one.
pub(crate) fn text_of(alloc: Global, bytes: Bytes) -> Result<Text, NoMemory>
    ensures { IfOk result (λ made. made ≡ bytes) }
{
    text_of_slice(alloc, bytes.as_slice())
}

pub(crate) fn text_of_slice(alloc: Global, bytes: &[u8]) -> Result<Text, NoMemory>
    ensures { IfOk result (λ made. made ≡ bytes.now) }
{
    match Text::from_utf8(alloc, bytes)? {
        Some(text) => Ok(text),
        None => Err(NoMemory),
    }
}
