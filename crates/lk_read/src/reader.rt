ghost use Rattle.std.specs.Prelude.{◌≡◌, Ok};
ghost use Rattle.lk_read.specs.Built.{closed_of};
ghost use Rattle.lk_read.specs.Bytes.{is_code_name};
ghost use Rattle.lk_read.specs.Reading.{Gives, start_of_file, in_phase, step, step_at, name_at, word_at, gap_at, piece_at, between_at, closed_to, colon_at, behind_colon};

use crate::builder::Builder;
use crate::letters::{is_code_name, is_name_byte, is_space, is_word_byte};
use crate::phase::{Param, Phase, Slot, let_go};
use crate::pieces::{one_byte, text_of, with_byte};
use crate::read_fault::ReadFault;
use crate::string::{code_at, escape_at, quoted_at, semicolon_at};
use crate::value::{behind_at, comma_at, start_at};
use lk_utf8::Utf8;
use lk_val::Bytes;
use std::alloc::Global;

/// The reader behind a front of a text: the tree so far, what it is in, and whether a comment is open.
#[derive(Drop)]
pub(crate) struct Reader {
    pub(crate) builder: Builder,
    pub(crate) phase: Phase,
    pub(crate) comment: bool,
}

impl Reader {
    /// The reader before the first byte; it takes no memory.
    pub(crate) fn new(alloc: Global) -> Reader
        ensures { result ≡ start_of_file }
    {
        Reader::within(Builder::new(alloc), Phase::Between)
    }

    pub(crate) fn within(builder: Builder, phase: Phase) -> Reader
        ensures { Ok result ≡ in_phase builder phase }
    {
        Reader {
            builder,
            phase,
            comment: false,
        }
    }

    /// The reader behind one more byte, which stands at this place.
    pub(crate) fn step(self, alloc: Global, place: u32, byte: u8) -> Result<Reader, ReadFault>
        ensures { Gives result (step 32 self place byte) }
    {
        let Reader {
            builder,
            phase,
            comment,
        } = self;
        if comment {
            Ok(Reader {
                builder,
                phase,
                comment: byte != b'\n',
            })
        } else {
            step_at(alloc, builder, phase, place, byte)
        }
    }
}

pub(crate) fn step_at(
    alloc: Global,
    builder: Builder,
    phase: Phase,
    place: u32,
    byte: u8,
) -> Result<Reader, ReadFault>
    ensures { Gives result (step_at 32 builder phase place byte) }
{
    match phase {
        Phase::Name(name, start) => name_at(alloc, builder, name, start, place, byte),
        Phase::Word(param, slot, text) => word_at(alloc, builder, param, slot, text, place, byte),
        Phase::Quoted(param, slot, quote, text, utf8) => {
            quoted_at(alloc, builder, param, slot, quote, text, utf8, place, byte)
        }
        Phase::Escape(param, slot, quote, text) => {
            escape_at(builder, param, slot, quote, text, place, byte)
        }
        Phase::Code(param, raw, utf8) => code_at(builder, param, raw, utf8, place, byte),
        Phase::Semicolon(param, raw) => semicolon_at(alloc, builder, param, raw, place, byte),
        Phase::Between => gap_at(alloc, builder, Phase::Between, place, byte),
        Phase::Colon(param) => gap_at(alloc, builder, Phase::Colon(param), place, byte),
        Phase::Start(param, slot) => gap_at(alloc, builder, Phase::Start(param, slot), place, byte),
        Phase::Behind(param, slot, text) => {
            gap_at(
                alloc,
                builder,
                Phase::Behind(param, slot, text),
                place,
                byte,
            )
        }
        Phase::Comma(param, list) => gap_at(alloc, builder, Phase::Comma(param, list), place, byte),
    }
}

pub(crate) fn name_at(
    alloc: Global,
    builder: Builder,
    name: Bytes,
    start: u32,
    place: u32,
    byte: u8,
) -> Result<Reader, ReadFault>
    ensures { Gives result (name_at 32 builder name start place byte) }
{
    if is_name_byte(byte) {
        let name = with_byte(name, byte)?;
        return Ok(Reader::within(builder, Phase::Name(name, start)));
    }
    let name = text_of(alloc, name)?;
    let param = Param { name, place: start };
    gap_at(alloc, builder, Phase::Colon(param), place, byte)
}

pub(crate) fn word_at(
    alloc: Global,
    builder: Builder,
    param: Param,
    slot: Slot,
    text: Bytes,
    place: u32,
    byte: u8,
) -> Result<Reader, ReadFault>
    ensures { Gives result (word_at 32 builder param slot text place byte) }
{
    if is_word_byte(byte) {
        let text = with_byte(text, byte)?;
        return Ok(Reader::within(builder, Phase::Word(param, slot, text)));
    }
    let text = text_of(alloc, text)?;
    gap_at(
        alloc,
        builder,
        Phase::Behind(param, slot, text),
        place,
        byte,
    )
}

/// White space, a comment's beginning, or the next piece.
pub(crate) fn gap_at(
    alloc: Global,
    builder: Builder,
    phase: Phase,
    place: u32,
    byte: u8,
) -> Result<Reader, ReadFault>
    ensures { Gives result (gap_at 32 builder phase place byte) }
{
    if is_space(byte) {
        Ok(Reader::within(builder, phase))
    } else if byte == b'#' {
        Ok(Reader {
            builder,
            phase,
            comment: true,
        })
    } else {
        piece_at(alloc, builder, phase, place, byte)
    }
}

pub(crate) fn piece_at(
    alloc: Global,
    builder: Builder,
    phase: Phase,
    place: u32,
    byte: u8,
) -> Result<Reader, ReadFault>
    ensures { Gives result (piece_at 32 builder phase place byte) }
{
    match phase {
        Phase::Between => between_at(alloc, builder, place, byte),
        Phase::Colon(param) => colon_at(alloc, builder, param, place, byte),
        Phase::Start(param, slot) => start_at(alloc, builder, param, slot, place, byte),
        Phase::Behind(param, slot, text) => {
            behind_at(alloc, builder, param, slot, text, place, byte)
        }
        Phase::Comma(param, list) => comma_at(builder, param, list, place, byte),
        other => {
            let_go(other);
            Err(ReadFault::R4(place))
        }
    }
}

/// Where a parameter may begin, or a block may end.
pub(crate) fn between_at(
    alloc: Global,
    builder: Builder,
    place: u32,
    byte: u8,
) -> Result<Reader, ReadFault>
    ensures { Gives result (between_at builder place byte) }
{
    if is_name_byte(byte) {
        let name = one_byte(alloc, byte)?;
        Ok(Reader::within(builder, Phase::Name(name, place)))
    } else if byte == b'}' {
        close(builder, place)
    } else {
        Err(ReadFault::R4(place))
    }
}

/// Ends the innermost block, if one is open.
pub(crate) fn close(builder: Builder, place: u32) -> Result<Reader, ReadFault>
    ensures { Gives result (closed_to (closed_of builder builder.open_braces) place) }
{
    match builder.with_closing()? {
        Some(outer) => Ok(Reader::within(outer, Phase::Between)),
        None => Err(ReadFault::R4(place)),
    }
}

pub(crate) fn colon_at(
    alloc: Global,
    builder: Builder,
    param: Param,
    place: u32,
    byte: u8,
) -> Result<Reader, ReadFault>
    ensures { Gives result (colon_at builder param place byte) }
{
    if byte == b':' {
        Ok(Reader::within(builder, behind_colon(alloc, param)))
    } else {
        Err(ReadFault::R4(place))
    }
}

/// Behind the colon there is code, where the name wants it.
pub(crate) fn behind_colon(alloc: Global, param: Param) -> Phase
    ensures { result ≡ behind_colon param (is_code_name param.name) }
{
    if is_code_name(param.name.as_bytes()) {
        Phase::Code(param, Bytes::new(alloc), Utf8::Whole)
    } else {
        Phase::Start(param, Slot::Value)
    }
}
