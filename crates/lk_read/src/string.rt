ghost use Rattle.std.specs.Prelude.{◌++◌};
ghost use Rattle.lk_read.specs.Built.{with_lines};
ghost use Rattle.lk_read.specs.EntryOutline.{entry_of};
ghost use Rattle.lk_read.specs.Further.{further};
ghost use Rattle.lk_read.specs.Grammar.{trimmed};
ghost use Rattle.lk_read.specs.Outline.{code};
ghost use Rattle.lk_read.specs.Reading.{Gives, in_phase, with_entry, with_plain, quoted_at, string_ended, escape_at, code_at, semicolon_at};
ghost use Rattle.lk_read.specs.TreeOutline.{item_lines};
ghost use Rattle.lk_read.specs.declared.phase.Phase.TheVariants as phase;

use crate::builder::Builder;
use crate::phase::{OpenList, Param, Phase, Slot};
use crate::pieces::{text_of, text_of_slice, with_bytes, with_entry, with_escape, with_value};
use crate::read_fault::ReadFault;
use crate::reader::Reader;
use crate::tree::{Entry, Node};
use crate::trim::trimmed;
use lk_utf8::{Utf8, is_whole, utf8_after};
use lk_val::{Bytes, Text};
use std::alloc::Global;

pub(crate) fn quoted_at(
    alloc: Global,
    builder: Builder,
    param: Param,
    slot: Slot,
    quote: u32,
    text: Bytes,
    utf8: Utf8,
    place: u32,
    byte: u8,
) -> Result<Reader, ReadFault>
    ensures { Gives result (quoted_at builder param slot quote text utf8 place byte) }
{
    if is_whole(utf8) && byte == b'"' {
        let text = text_of(alloc, text)?;
        end_string(builder, param, slot, text)
    } else if is_whole(utf8) && byte == b'\\' {
        Ok(Reader::within(builder, Phase::Escape(param, slot, quote, text)))
    } else {
        let (text, next) = further(text, &[byte], utf8_after(utf8, byte), place)?;
        Ok(Reader::within(builder, Phase::Quoted(param, slot, quote, text, next)))
    }
}

pub(crate) fn end_string(
    builder: Builder,
    param: Param,
    slot: Slot,
    text: Text,
) -> Result<Reader, ReadFault>
    ensures { Gives result (string_ended builder param slot text) }
{
    match slot {
        Slot::Value => end_value(builder, param, Node::Quoted(text)),
        Slot::Entry(list) => end_entry(builder, param, list, Entry::One(Node::Quoted(text))),
        Slot::Pair(list, key) => end_entry(builder, param, list, Entry::Pair(key, text)),
    }
}

fn end_value(builder: Builder, param: Param, value: Node) -> Result<Reader, ReadFault>
    ensures { Gives result
        (in_phase (with_lines builder (item_lines param.name param.place value)) phase.Between) }
{
    let builder = with_value(builder, param, value)?;
    Ok(Reader::within(builder, Phase::Between))
}

fn end_entry(
    builder: Builder,
    param: Param,
    list: OpenList,
    entry: Entry,
) -> Result<Reader, ReadFault>
    ensures { Gives result (in_phase builder (phase.Comma param (with_entry list (entry_of entry)))) }
{
    let list = with_entry(list, entry)?;
    Ok(Reader::within(builder, Phase::Comma(param, list)))
}

pub(crate) fn escape_at(
    builder: Builder,
    param: Param,
    slot: Slot,
    quote: u32,
    text: Bytes,
    place: u32,
    byte: u8,
) -> Result<Reader, ReadFault>
    ensures { Gives result (escape_at builder param slot quote text place byte) }
{
    match utf8_after(Utf8::Whole, byte) {
        Some(next) => {
            let text = with_escape(text, byte)?;
            Ok(Reader::within(builder, Phase::Quoted(param, slot, quote, text, next)))
        }
        None => Err(ReadFault::R4(place)),
    }
}

/// A text with these bytes, and what its last character owes, unless no character goes on so.
fn further(
    text: Bytes,
    more: &[u8],
    next: Option<Utf8>,
    place: u32,
) -> Result<(Bytes, Utf8), ReadFault>
    ensures { Gives result (further (text ++ more.now) next place) }
{
    match next {
        Some(next) => Ok((with_bytes(text, more)?, next)),
        None => Err(ReadFault::R4(place)),
    }
}

pub(crate) fn code_at(
    builder: Builder,
    param: Param,
    raw: Bytes,
    utf8: Utf8,
    place: u32,
    byte: u8,
) -> Result<Reader, ReadFault>
    ensures { Gives result (code_at builder param raw utf8 place byte) }
{
    if is_whole(utf8) && byte == b';' {
        return Ok(Reader::within(builder, Phase::Semicolon(param, raw)));
    }
    let (raw, next) = further(raw, &[byte], utf8_after(utf8, byte), place)?;
    Ok(Reader::within(builder, Phase::Code(param, raw, next)))
}

pub(crate) fn semicolon_at(
    alloc: Global,
    builder: Builder,
    param: Param,
    raw: Bytes,
    place: u32,
    byte: u8,
) -> Result<Reader, ReadFault>
    ensures { Gives result (semicolon_at builder param raw place byte) }
{
    if byte == b';' {
        return end_code(alloc, builder, param, raw);
    }
    let (raw, next) = further(raw, &[b';', byte], utf8_after(Utf8::Whole, byte), place)?;
    Ok(Reader::within(builder, Phase::Code(param, raw, next)))
}

fn end_code(alloc: Global, builder: Builder, param: Param, raw: Bytes) -> Result<Reader, ReadFault>
    ensures { Gives result (in_phase (with_plain builder param (code (trimmed raw))) phase.Between) }
{
    let text = text_of_slice(alloc, trimmed(raw.as_slice()))?;
    end_value(builder, param, Node::Code(text))
}
