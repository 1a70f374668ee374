ghost use Rattle.std.specs.Prelude.{◌≡◌, IfOk, IsOkAnd, OnOk, codes, false};
ghost use Rattle.serde_json.specs.Data.{no_members, number, object, put as with_member, string, unsigned};
ghost use Rattle.serde_json.specs.View.{members_view, view};
ghost use Rattle.serde_json.specs.Written.{has_float};
ghost use Rattle.lk_types.specs.Printing.{value_text};
ghost use Rattle.lk_command_reply.specs.Refusals.{bare_data, cell_data, check_refusal, error_member, load_refusal, load_refusal_data, load_status, named_data, refusal_reply, refusal_text, row_data, unsaved_reply};

use crate::fault::{CheckFault, LoadFault};
use crate::objects::{object_of, put_number, put_text, text_of};
use lk_types::{Reply, Shape, print_cell};
use lk_val::{Bytes, Cell, NoMemory, Text, Value as TableValue};
use serde_json::{Map, Value};
use std::alloc::{AllocError, Global};

/// The reply to a load that is refused: its status, and in JSON `error` with its code and beside it what it is about: `user`,
/// `table`, `row`, `column` or `key`. (RFC 9110; lookd)
#[tactic(auto, using(crate::proofs::RefusalLaws::load_plain))]
pub fn reply_load_refusal(alloc: Global, fault: &LoadFault) -> Result<Reply, NoMemory>
    ensures { IfOk result (λ reply. reply ≡ load_refusal fault.now) }
{
    refusal_reply(alloc, load_status(fault), load_refusal_data(alloc, fault))
}

/// The reply to a load or a check that the store could not save (K1).
pub fn reply_unsaved(alloc: Global) -> Result<Reply, NoMemory>
    ensures { IfOk result (λ reply. reply ≡ unsaved_reply) }
{
    refusal_reply(alloc, 503, bare(alloc, "K1"))
}

/// The reply to a check that is refused.
pub fn reply_check_refusal(alloc: Global, fault: &CheckFault) -> Result<Reply, NoMemory>
    ensures { IfOk result (λ reply. reply ≡ check_refusal fault.now) }
{
    match fault {
        CheckFault::G1(user) => refusal_reply(
            alloc,
            403,
            named(alloc, "G1", "user", user.as_str()),
        ),
        CheckFault::G2(table) => refusal_reply(
            alloc,
            413,
            named(alloc, "G2", "table", table.as_str()),
        ),
        CheckFault::NoMemory => refusal_reply(alloc, 507, bare(alloc, "memory")),
    }
}

// The reply of a body, if it was made.
fn refusal_reply(
    alloc: Global,
    status: u16,
    value: Result<Value, NoMemory>,
) -> Result<Reply, NoMemory>
    ensures { IfOk result (λ reply. IsOkAnd value (λ made.
        has_float (view made) ≡ false → reply ≡ refusal_reply status (view made))) }
{
    Ok(Reply {
        status,
        csv: false,
        body: refusal_text(alloc, value)?,
    })
}

#[tactic(auto, unfolding(crate::specs::Refusals::refusal_text))]
fn refusal_text(alloc: Global, value: Result<Value, NoMemory>) -> Result<Bytes, NoMemory>
    ensures { IfOk result (λ text. IsOkAnd value (λ made.
        has_float (view made) ≡ false → text ≡ refusal_text (view made))) }
{
    text_of(alloc, value)
}

fn load_status(fault: &LoadFault) -> u16
    ensures { result ≡ load_status fault.now }
{
    match fault {
        LoadFault::L1(_) => 403,
        LoadFault::L2(_) => 404,
        LoadFault::L3 { .. } | LoadFault::L5(_) => 400,
        LoadFault::L4(_) => 409,
        LoadFault::L6 => 413,
        LoadFault::NoMemory => 507,
    }
}

fn load_refusal_data(alloc: Global, fault: &LoadFault) -> Result<Value, NoMemory>
    ensures { IfOk result (λ value. view value ≡ load_refusal_data fault.now) }
{
    match fault {
        LoadFault::L1(user) => named(alloc, "L1", "user", user.as_str()),
        LoadFault::L2(table) => named(alloc, "L2", "table", table.as_str()),
        LoadFault::L3 { row, column } => unread_cell(alloc, *row, column),
        LoadFault::L4(key) => repeated_key(alloc, key),
        LoadFault::L5(row) => null_key(alloc, *row),
        LoadFault::L6 => bare(alloc, "L6"),
        LoadFault::NoMemory => bare(alloc, "memory"),
    }
}

fn bare(alloc: Global, code: &str) -> Result<Value, NoMemory>
    ensures { IfOk result (λ value. view value ≡ bare_data code.now) }
{
    let mut members = Map::new(alloc);
    let put = put_text(alloc, &mut members, "error", code);
    object_of(members, put)
}

// A code, and a text beside it.
fn named(alloc: Global, code: &str, key: &str, text: &str) -> Result<Value, NoMemory>
    ensures { IfOk result (λ value. view value
        ≡ object (with_member key.now (string text.now) (error_member code.now no_members))) }
{
    let mut members = Map::new(alloc);
    let put = put_named(alloc, &mut members, code, key, text);
    object_of(members, put)
}

fn put_named(
    alloc: Global,
    members: &mut Map<String, Value>,
    code: &str,
    key: &str,
    text: &str,
) -> Result<(), AllocError>
    ensures { OnOk result (members_view members.new.entries
        ≡ with_member key.now (string text.now)
        (with_member (codes "error") (string code.now) (members_view members.old.entries))) }
{
    put_text(alloc, members, "error", code)?;
    put_text(alloc, members, key, text)
}

fn unread_cell(alloc: Global, row: u32, column: &Text) -> Result<Value, NoMemory>
    ensures { IfOk result (λ value. view value ≡ cell_data row column.now) }
{
    let mut members = Map::new(alloc);
    let put = put_cell(alloc, &mut members, row, column);
    object_of(members, put)
}

fn put_cell(
    alloc: Global,
    members: &mut Map<String, Value>,
    row: u32,
    column: &Text,
) -> Result<(), AllocError>
    ensures { OnOk result (members_view members.new.entries
        ≡ with_member (codes "row") (number (unsigned row)) (with_member (codes "error") (string (codes "L3"))
        (with_member (codes "column") (string column.now) (members_view members.old.entries)))) }
{
    put_text(alloc, members, "column", column.as_str())?;
    put_row(alloc, members, "L3", row)
}

fn repeated_key(alloc: Global, key: &TableValue) -> Result<Value, NoMemory>
    ensures { IfOk result (λ value. view value ≡ named_data (codes "L4") (codes "key") (value_text key.now)) }
{
    let text = key_text(alloc, key)?;
    named(alloc, "L4", "key", text.as_str())
}

fn key_text(alloc: Global, key: &TableValue) -> Result<Text, NoMemory>
    ensures { IfOk result (λ text. text ≡ value_text key.now) }
{
    let cell = Cell::Value(key.copy(alloc)?);
    print_cell(alloc, &cell, &Shape::Plain)
}

fn null_key(alloc: Global, row: u32) -> Result<Value, NoMemory>
    ensures { IfOk result (λ value. view value ≡ row_data row) }
{
    let mut members = Map::new(alloc);
    let put = put_row(alloc, &mut members, "L5", row);
    object_of(members, put)
}

// A code, and a row beside it.
fn put_row(
    alloc: Global,
    members: &mut Map<String, Value>,
    code: &str,
    row: u32,
) -> Result<(), AllocError>
    ensures { OnOk result (members_view members.new.entries
        ≡ with_member (codes "row") (number (unsigned row))
        (with_member (codes "error") (string code.now) (members_view members.old.entries))) }
{
    put_text(alloc, members, "error", code)?;
    put_number(alloc, members, "row", u64::from(row))
}
