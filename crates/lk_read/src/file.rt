ghost use Rattle.std.specs.Prelude.{◌≡◌, ◌<◌, ◌^◌, List, length, IfOk, IfErr, IfSome, Ok, Err};
ghost use Rattle.lk_read.specs.BrokenOff.{broken_off};
ghost use Rattle.lk_read.specs.Faults.{AsFault};
ghost use Rattle.lk_read.specs.Outcome.{IsOutcome, outcome_of};
ghost use Rattle.lk_read.specs.Grammar.{IsFile};
ghost use Rattle.lk_read.specs.Reading.{Gives, GivesLines, read_lines, read_from, end_at, start_end, word_end, whole, missing, with_plain};
ghost use Rattle.lk_read.specs.Built.{first_of};
ghost use Rattle.lk_read.specs.Outline.{Outline, word};
ghost use Rattle.lk_read.specs.Lines.{Line};

use crate::builder::Builder;
use crate::phase::{Param, Phase, Slot, let_go};
use crate::pieces::{text_of, with_value};
use crate::read_fault::ReadFault;
use crate::reader::Reader;
use crate::tree::{Node, Tree};
use lk_val::{Bytes, Text};
use std::alloc::Global;

/// The tree that a file's bytes spell, or the first fault. (Looker, LookML reference; lookd)
pub fn read_file(alloc: Global, bytes: &[u8]) -> Result<Tree, ReadFault>
    requires { length bytes.now < 2 ^ 32 }
    // The bytes spell the tree.
    ensures found { IfOk result (λ tree. IsFile 32 bytes.now tree) }
    // They spell no other tree.
    ensures only { IfOk result (λ tree. (other : Outline) → IsFile 32 bytes.now other → other ≡ tree) }
    // Bytes that spell a tree are read, unless memory runs out.
    ensures complete { (tree : Outline) → IsFile 32 bytes.now tree → Gives result (Ok tree) }
    // What is refused spells no tree, and the answer is its first fault, unless memory ran out.
    ensures refused { IfErr result (λ why. AsFault 32 bytes.now why) }
    // In a word: unless memory ran out, the answer is the outcome of the bytes, of which there is one.
    ensures outcome { IfSome (outcome_of result) (IsOutcome 32 bytes.now) }
{
    read_text(alloc, bytes)
}

#[tactic(auto, unfolding(crate::specs::Reading::read_lines))]
fn read_text(alloc: Global, bytes: &[u8]) -> Result<Tree, ReadFault>
    requires { length bytes.now < 2 ^ 32 }
    ensures { GivesLines result (read_lines 32 bytes.now) }
{
    read_bytes(alloc, Reader::new(alloc), bytes)
}

fn read_bytes(alloc: Global, first: Reader, bytes: &[u8]) -> Result<Tree, ReadFault>
    requires { length bytes.now < 2 ^ 32 }
    ensures { GivesLines result (read_from 32 0 first bytes.now) }
{
    let mut reader = first;
    let mut place = 0;
    for byte in bytes {
        reader = reader.step(alloc, place, *byte)?;
        place += 1;
    }
    let Reader { builder, phase, .. } = reader;
    end_at(alloc, builder, phase, place)
}

/// The answer for a text that ends here.
fn end_at(alloc: Global, builder: Builder, phase: Phase, place: u32) -> Result<Tree, ReadFault>
    ensures { GivesLines result (end_at builder phase place) }
{
    match phase {
        Phase::Between => whole(builder),
        Phase::Word(param, slot, text) => bytes_end(alloc, builder, param, slot, text),
        Phase::Behind(param, slot, text) => word_end(builder, param, slot, text),
        other => {
            let why = broken_off(&builder, &other, place);
            let_go(other);
            Err(why)
        }
    }
}

/// The fault of a text that ends before a value or in the middle of one.
fn broken_off(builder: &Builder, phase: &Phase, place: u32) -> ReadFault
    ensures { broken_off builder.now phase.now place ≡ Err result }
{
    match phase {
        Phase::Start(_, slot) => start_end(builder, slot, place),
        Phase::Comma(_, list) => ReadFault::R2(list.bracket),
        Phase::Quoted(_, _, quote, _, _) => ReadFault::R1(*quote),
        Phase::Escape(_, _, quote, _) => ReadFault::R1(*quote),
        Phase::Code(param, _, _) => ReadFault::R3(param.place),
        Phase::Semicolon(param, _) => ReadFault::R3(param.place),
        _ => missing(builder, place),
    }
}

/// The tree, where no block is open.
fn whole(builder: Builder) -> Result<Tree, ReadFault>
    ensures { GivesLines result (whole builder (first_of builder.open_braces)) }
{
    match builder.innermost() {
        None => Ok(builder.into_tree()),
        Some(brace) => Err(ReadFault::R2(brace)),
    }
}

/// The fault of a text that ends before a value.
fn missing(builder: &Builder, place: u32) -> ReadFault
    ensures { missing (first_of builder.now.open_braces) place ≡ Err result }
{
    match builder.innermost() {
        None => ReadFault::R4(place),
        Some(brace) => ReadFault::R2(brace),
    }
}

fn start_end(builder: &Builder, slot: &Slot, place: u32) -> ReadFault
    ensures { start_end builder.now slot.now place ≡ Err result }
{
    match slot {
        Slot::Value => missing(builder, place),
        Slot::Entry(list) => ReadFault::R2(list.bracket),
        Slot::Pair(list, _) => ReadFault::R2(list.bracket),
    }
}

fn bytes_end(
    alloc: Global,
    builder: Builder,
    param: Param,
    slot: Slot,
    text: Bytes,
) -> Result<Tree, ReadFault>
    ensures { GivesLines result (word_end builder param slot text) }
{
    let text = text_of(alloc, text)?;
    word_end(builder, param, slot, text)
}

fn word_end(builder: Builder, param: Param, slot: Slot, text: Text) -> Result<Tree, ReadFault>
    ensures { GivesLines result (word_end builder param slot text) }
{
    match slot {
        Slot::Value => whole(with_value(builder, param, Node::Word(text))?),
        Slot::Entry(list) => Err(ReadFault::R2(list.bracket)),
        Slot::Pair(list, _) => Err(ReadFault::R2(list.bracket)),
    }
}
