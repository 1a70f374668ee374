ghost use Rattle.lk_read.specs.Reading.{Gives, start_at, bracket_at, list_opened, block_opened, list_ended, comma_at, behind_at};
ghost use Rattle.lk_read.specs.declared.phase.Slot.TheVariants as slot;

use crate::builder::Builder;
use crate::letters::{is_key, is_title, is_word_byte};
use crate::phase::{OpenList, Param, Phase, Slot};
use crate::pieces::{one_byte, with_entry, with_value};
use crate::read_fault::ReadFault;
use crate::reader::{Reader, between_at};
use crate::tree::{Entries, Entry, Node};
use lk_utf8::Utf8;
use lk_val::{Bytes, Text};
use std::alloc::Global;

/// How many blocks and lists may be open at once.
const MOST_OPEN: usize = 32;

/// Where a value or an entry may begin.
pub(crate) fn start_at(
    alloc: Global,
    builder: Builder,
    param: Param,
    slot: Slot,
    place: u32,
    byte: u8,
) -> Result<Reader, ReadFault>
    ensures { Gives result (start_at 32 builder param slot place byte) }
{
    if is_word_byte(byte) {
        let text = one_byte(alloc, byte)?;
        Ok(Reader::within(builder, Phase::Word(param, slot, text)))
    } else if byte == b'"' {
        let phase = Phase::Quoted(param, slot, place, Bytes::new(alloc), Utf8::Whole);
        Ok(Reader::within(builder, phase))
    } else {
        bracket_at(alloc, builder, param, slot, place, byte)
    }
}

pub(crate) fn bracket_at(
    alloc: Global,
    builder: Builder,
    param: Param,
    slot: Slot,
    place: u32,
    byte: u8,
) -> Result<Reader, ReadFault>
    ensures { Gives result (bracket_at 32 builder param slot place byte) }
{
    match slot {
        Slot::Value => {
            if byte == b'[' {
                open_list(alloc, builder, param, place)
            } else if byte == b'{' {
                open_block(alloc, builder, param, None, place)
            } else {
                Err(ReadFault::R4(place))
            }
        }
        Slot::Entry(list) => {
            if byte == b']' {
                end_list(builder, param, list)
            } else {
                Err(ReadFault::R4(place))
            }
        }
        Slot::Pair(_, _) => Err(ReadFault::R4(place)),
    }
}

pub(crate) fn open_list(
    alloc: Global,
    builder: Builder,
    param: Param,
    place: u32,
) -> Result<Reader, ReadFault>
    ensures { Gives result (list_opened 32 builder param place) }
{
    if builder.depth() < MOST_OPEN {
        let list = OpenList {
            bracket: place,
            entries: Entries::new(alloc),
        };
        Ok(Reader::within(builder, Phase::Start(param, Slot::Entry(list))))
    } else {
        Err(ReadFault::R5(place))
    }
}

pub(crate) fn open_block(
    alloc: Global,
    builder: Builder,
    param: Param,
    title: Option<Text>,
    place: u32,
) -> Result<Reader, ReadFault>
    ensures { Gives result (block_opened 32 builder param title place) }
{
    if builder.depth() < MOST_OPEN {
        let inner = builder.with_block(alloc, param.name, param.place, title, place)?;
        Ok(Reader::within(inner, Phase::Between))
    } else {
        Err(ReadFault::R5(place))
    }
}

pub(crate) fn end_list(builder: Builder, param: Param, list: OpenList) -> Result<Reader, ReadFault>
    ensures { Gives result (list_ended builder param list) }
{
    let value = Node::List(list.entries);
    let builder = with_value(builder, param, value)?;
    Ok(Reader::within(builder, Phase::Between))
}

/// Behind an entry of a list.
pub(crate) fn comma_at(
    builder: Builder,
    param: Param,
    list: OpenList,
    place: u32,
    byte: u8,
) -> Result<Reader, ReadFault>
    ensures { Gives result (comma_at builder param list place byte) }
{
    if byte == b',' {
        Ok(Reader::within(builder, Phase::Start(param, Slot::Entry(list))))
    } else if byte == b']' {
        end_list(builder, param, list)
    } else {
        Err(ReadFault::R4(place))
    }
}

/// Behind a word, which a brace, a colon or nothing may follow.
pub(crate) fn behind_at(
    alloc: Global,
    builder: Builder,
    param: Param,
    slot: Slot,
    text: Text,
    place: u32,
    byte: u8,
) -> Result<Reader, ReadFault>
    ensures { Gives result (behind_at 32 builder param slot text place byte) }
{
    match slot {
        Slot::Value => behind_value(alloc, builder, param, text, place, byte),
        Slot::Entry(list) => behind_entry(builder, param, list, text, place, byte),
        Slot::Pair(list, key) => {
            let list = with_entry(list, Entry::Pair(key, text))?;
            comma_at(builder, param, list, place, byte)
        }
    }
}

pub(crate) fn behind_value(
    alloc: Global,
    builder: Builder,
    param: Param,
    text: Text,
    place: u32,
    byte: u8,
) -> Result<Reader, ReadFault>
    ensures { Gives result (behind_at 32 builder param slot.Value text place byte) }
{
    if byte == b'{' && is_title(text.as_bytes()) {
        open_block(alloc, builder, param, Some(text), place)
    } else {
        let builder = with_value(builder, param, Node::Word(text))?;
        between_at(alloc, builder, place, byte)
    }
}

pub(crate) fn behind_entry(
    builder: Builder,
    param: Param,
    list: OpenList,
    text: Text,
    place: u32,
    byte: u8,
) -> Result<Reader, ReadFault>
    ensures { Gives result (behind_at 32 builder param (slot.Entry list) text place byte) }
{
    if byte == b':' && is_key(text.as_bytes()) {
        Ok(Reader::within(builder, Phase::Start(param, Slot::Pair(list, text))))
    } else {
        let list = with_entry(list, Entry::One(Node::Word(text)))?;
        comma_at(builder, param, list, place, byte)
    }
}
