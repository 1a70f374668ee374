ghost use Rattle.std.specs.Prelude.{◌≡◌, IfOk, OnOk, codes, map};
ghost use Rattle.serde_json.specs.Data.{array, number, put as with_member, string, unsigned};
ghost use Rattle.serde_json.specs.View.{items_of, members_view, view};
ghost use Rattle.lk_command_reply.specs.Replies.{built_data, built_reply, built_text, load_data, load_reply, load_text};

use crate::objects::{object_of, printed, put_number, text_of};
use lk_types::Reply;
use lk_val::{Bytes, Items, NoMemory, Text};
use serde_json::{Map, Value, put};
use std::alloc::{AllocError, Global};

/// The reply to an accepted load: how many rows its batch has, and the number of the state that it made. (lookd)
pub fn load_reply(alloc: Global, rows: u64, snapshot: u64) -> Result<Reply, NoMemory>
    ensures { IfOk result (λ reply. reply ≡ load_reply rows snapshot) }
{
    Ok(Reply {
        status: 200,
        csv: false,
        body: load_text(alloc, rows, snapshot)?,
    })
}

#[tactic(auto, unfolding(crate::specs::Replies::load_text))]
fn load_text(alloc: Global, rows: u64, snapshot: u64) -> Result<Bytes, NoMemory>
    ensures { IfOk result (λ text. text ≡ load_text rows snapshot) }
{
    text_of(alloc, load_value(alloc, rows, snapshot))
}

fn load_value(alloc: Global, rows: u64, snapshot: u64) -> Result<Value, NoMemory>
    ensures { IfOk result (λ value. view value ≡ load_data rows snapshot) }
{
    let mut members = Map::new(alloc);
    let put = put_load(alloc, &mut members, rows, snapshot);
    object_of(members, put)
}

fn put_load(
    alloc: Global,
    members: &mut Map<String, Value>,
    rows: u64,
    snapshot: u64,
) -> Result<(), AllocError>
    ensures { OnOk result (members_view members.new.entries
        ≡ with_member (codes "snapshot") (number (unsigned snapshot))
        (with_member (codes "rows") (number (unsigned rows)) (members_view members.old.entries))) }
{
    put_number(alloc, members, "rows", rows)?;
    put_number(alloc, members, "snapshot", snapshot)
}

/// The reply to a check: the names of the datagroups that it built, and the number of the state, which stays where it built none.
/// (lookd)
pub fn built_reply(alloc: Global, names: Items<Text>, snapshot: u64) -> Result<Reply, NoMemory>
    ensures { IfOk result (λ reply. reply ≡ built_reply names snapshot) }
{
    Ok(Reply {
        status: 200,
        csv: false,
        body: built_text(alloc, names, snapshot)?,
    })
}

fn built_text(alloc: Global, names: Items<Text>, snapshot: u64) -> Result<Bytes, NoMemory>
    ensures { IfOk result (λ text. text ≡ built_text names snapshot) }
{
    let value = built_value(alloc, names, snapshot)?;
    let text = printed(alloc, &value)?;
    Ok(text)
}

fn built_value(alloc: Global, names: Items<Text>, snapshot: u64) -> Result<Value, NoMemory>
    ensures { IfOk result (λ value. view value ≡ built_data names snapshot) }
{
    let names = names_value(alloc, names)?;
    let mut members = Map::new(alloc);
    let put = put_built(alloc, &mut members, names, snapshot);
    object_of(members, put)
}

fn put_built(
    alloc: Global,
    members: &mut Map<String, Value>,
    names: Value,
    snapshot: u64,
) -> Result<(), AllocError>
    ensures { OnOk result (members_view members.new.entries
        ≡ with_member (codes "snapshot") (number (unsigned snapshot))
        (with_member (codes "built") (view names) (members_view members.old.entries))) }
{
    put(members, alloc, "built", names)?;
    put_number(alloc, members, "snapshot", snapshot)
}

// The names in a list.
fn names_value(alloc: Global, names: Items<Text>) -> Result<Value, NoMemory>
    ensures { IfOk result (λ value. view value ≡ array (items_of (map string names))) }
{
    let mut texts = Vec::new(alloc);
    for name in names.into_vec() {
        texts.push(text_value(name))?;
    }
    Ok(Value::Array(texts))
}

fn text_value(text: Text) -> Value
    ensures { view result ≡ string text }
{
    Value::String(text.into_string())
}
