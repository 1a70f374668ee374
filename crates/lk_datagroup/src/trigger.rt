ghost use Rattle.std.specs.Prelude.{◌≡◌, ◌++◌, ◌==◌, IfOk, map};
ghost use Rattle.std.specs.List.{filter, flat_map, slice_split};
ghost use Rattle.lk_datagroup.specs.Triggers.{aggregate_of, are_brackets, greatest_of, is_given, is_keyword, is_name, is_name_byte, is_select, is_white, pieces_of, spaced, table_in, today_of, trigger_in, trigger_of, watched_in};

use lk_types::{Schema, Trigger};
use lk_val::NoMemory;
use lk_written::{column_number, table_number};
use std::alloc::{AllocError, Global};

// What the text of a trigger watches: the greatest value of a column, the number of a table's rows, or the day.
// (Looker, LookML reference: sql_trigger)
pub(crate) fn trigger_of(
    alloc: Global,
    schema: &Schema,
    text: &[u8],
) -> Result<Option<Trigger>, NoMemory>
    ensures { IfOk result (λ trigger. trigger ≡ trigger_of schema.now text.now) }
{
    let spaced = spaced_text(alloc, text)?;
    let pieces = pieces_of(alloc, spaced.as_slice())?;
    trigger_in(schema, pieces.as_slice())
}

// The text with a space on either side of each sign, and with white space as spaces.
fn spaced_text(alloc: Global, text: &[u8]) -> Result<Vec<u8>, AllocError>
    ensures { IfOk result (λ bytes. bytes.items ≡ flat_map spaced text.now) }
{
    let mut bytes = Vec::new(alloc);
    for byte in text {
        push_spaced(*byte, &mut bytes)?;
    }
    Ok(bytes)
}

fn push_spaced(byte: u8, bytes: &mut Vec<u8>) -> Result<(), AllocError>
    ensures { IfOk result (λ _. bytes.new.items ≡ bytes.old.items ++ spaced byte) }
{
    if is_name_byte(byte) {
        bytes.push(byte)?;
    } else if is_white(byte) {
        bytes.push(b' ')?;
    } else {
        bytes.push(b' ')?;
        bytes.push(byte)?;
        bytes.push(b' ')?;
    }
    Ok(())
}

fn is_name_byte(byte: u8) -> bool
    ensures { result ≡ is_name_byte byte }
{
    byte.is_ascii_alphanumeric() || byte == b'_'
}

fn is_white(byte: u8) -> bool
    ensures { result ≡ is_white byte }
{
    byte == b' ' || byte == b'\t' || byte == b'\r' || byte == b'\n'
}

// What stands between spaces.
fn cut(alloc: Global, text: &[u8]) -> Result<Vec<&[u8]>, AllocError>
    ensures { IfOk result (λ pieces. map (λ p. p.now) pieces.items ≡ slice_split (λ c. c == 32) text.now) }
{
    text.split(|byte| *byte == b' ').collect(alloc)
}

fn pieces_of(alloc: Global, text: &[u8]) -> Result<Vec<&[u8]>, NoMemory>
    ensures { IfOk result (λ pieces. map (λ p. p.now) pieces.items ≡ filter is_given (slice_split (λ c. c == 32) text.now)) }
{
    let all = cut(alloc, text)?;
    let mut pieces = Vec::new(alloc);
    for piece in all.as_slice() {
        if !piece.is_empty() {
            pieces.push(*piece)?;
        }
    }
    Ok(pieces)
}

fn trigger_in(schema: &Schema, pieces: &[&[u8]]) -> Result<Option<Trigger>, NoMemory>
    ensures { IfOk result (λ trigger. trigger ≡ trigger_in schema.now (map (λ p. p.now) pieces.now)) }
{
    match pieces {
        [select, today] => Ok(today_of(select, today)),
        [select, function, left, argument, right, from, table] => {
            if is_select(select, left, right, from) {
                watched_in(schema, function, argument, table)
            } else {
                Ok(None)
            }
        }
        _ => Ok(None),
    }
}

// Whether the words and signs round an aggregate are those of a SELECT.
fn is_select(select: &[u8], left: &[u8], right: &[u8], from: &[u8]) -> bool
    ensures { result ≡ is_select select.now left.now right.now from.now }
{
    is_keyword(b"select", select) && are_brackets(left, right) && is_keyword(b"from", from)
}

// The day itself, where the two words ask for it.
fn today_of(select: &[u8], today: &[u8]) -> Option<Trigger>
    ensures { result ≡ today_of select.now today.now }
{
    if is_keyword(b"select", select) && is_keyword(b"current_date", today) {
        Some(Trigger::Today)
    } else {
        None
    }
}

fn watched_in(
    schema: &Schema,
    function: &[u8],
    argument: &[u8],
    table: &[u8],
) -> Result<Option<Trigger>, NoMemory>
    ensures { IfOk result (λ trigger. trigger
        ≡ watched_in schema.now function.now argument.now table.now) }
{
    match table_in(schema, table) {
        None => Ok(None),
        Some(number) => aggregate_of(schema, function, argument, number),
    }
}

fn table_in(schema: &Schema, name: &[u8]) -> Option<usize>
    ensures { result ≡ table_in schema.now name.now }
{
    if is_name(name) {
        table_number(schema, name)
    } else {
        None
    }
}

// `MAX` of a column, or `COUNT` of `*`, in a table. Numbers past 32 bits want memory.
fn aggregate_of(
    schema: &Schema,
    function: &[u8],
    argument: &[u8],
    table: usize,
) -> Result<Option<Trigger>, NoMemory>
    ensures { IfOk result (λ trigger. trigger ≡ aggregate_of schema.now function.now argument.now table) }
{
    if is_keyword(b"max", function) {
        greatest_of(schema, argument, table)
    } else if is_keyword(b"count", function) && argument == b"*".as_slice() {
        Ok(Some(Trigger::Count(number(table)?)))
    } else {
        Ok(None)
    }
}

fn greatest_of(schema: &Schema, column: &[u8], table: usize) -> Result<Option<Trigger>, NoMemory>
    ensures { IfOk result (λ trigger. trigger ≡ greatest_of schema.now column.now table) }
{
    if !is_name(column) {
        return Ok(None);
    }
    match column_number(schema, table, column) {
        None => Ok(None),
        Some(column) => Ok(Some(Trigger::Max(number(table)?, number(column)?))),
    }
}

fn number(place: usize) -> Result<u32, NoMemory>
    ensures { IfOk result (λ n. n ≡ place) }
{
    u32::try_from(place).map_err(|_| NoMemory)
}

fn is_name(piece: &[u8]) -> bool
    ensures { result ≡ is_name piece.now }
{
    piece.iter().all(|byte| is_name_byte(*byte))
}

// Whether the piece is this word, letters in any case.
fn is_keyword(keyword: &[u8], piece: &[u8]) -> bool
    ensures { result ≡ is_keyword keyword.now piece.now }
{
    piece.eq_ignore_ascii_case(keyword)
}

fn are_brackets(left: &[u8], right: &[u8]) -> bool
    ensures { result ≡ are_brackets left.now right.now }
{
    left == b"(".as_slice() && right == b")".as_slice()
}
