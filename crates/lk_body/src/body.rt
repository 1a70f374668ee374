// The query of a body in JSON.

ghost use Rattle.std.specs.Prelude.{◌≡◌, IfOk, option_and_then, option_map};
ghost use Rattle.std.specs.List.{list_any};
ghost use Rattle.serde_json.specs.Find.{as_array, as_object};
ghost use Rattle.serde_json.specs.Read.{read};
ghost use Rattle.serde_json.specs.View.{members_view, view};
ghost use Rattle.lk_val.specs.Memory.{IsUnlessMemory};
ghost use Rattle.lk_val.specs.Texts.{is_same_text};
ghost use Rattle.lk_body.specs.Faults.{is_no_memory};
ghost use Rattle.lk_body.specs.Bodies.{csv_in, csv_of, fields_in, filters_in, fresh_in, has_known_keys, if_asked, if_few, known_keys, limit_in, query_at, query_from, query_in, query_of, sorts_in, strings_of};

use crate::fault::QueryFault;
use crate::sort::sorts_of;
use crate::strings::{member, pairs_of, strings_of};
use lk_types::Query;
use lk_val::{Items, NoMemory, Text, are_different, as_text};
use serde_json::{Map, Value};
use std::alloc::Global;

/// The query that a body is: a JSON object with `fields` (1 to 64 different names) and, where it likes, `filters` (an
/// object of at most 64 texts), `sorts` (at most 64 texts, each a name with ` asc` or ` desc` behind it or without),
/// `limit` (a whole number of 64 bits, 500 where it is left out), `fresh` (yes or no) and `format` (`json` or `csv`).
/// Whatever else it is, is refused (Q3). (lookd; RFC 8259)
#[tactic(auto, unfolding(crate::specs::Bodies::query_of))]
pub fn read_query(alloc: Global, body: &[u8]) -> Result<Query, QueryFault>
    ensures { IsUnlessMemory is_no_memory result (query_of body.now) }
{
    let Some(text) = as_text(body) else {
        return Err(QueryFault::Q3);
    };
    let Some(value) = parsed(alloc, text)? else {
        return Err(QueryFault::Q3);
    };
    match query_of_value(alloc, &value)? {
        Some(query) => Ok(query),
        None => Err(QueryFault::Q3),
    }
}

// The value that a text in JSON is. `serde_json` refuses one that nests too deep to be gone through.
fn parsed(alloc: Global, text: &str) -> Result<Option<Value>, NoMemory>
    ensures { IfOk result (λ value. option_map view value ≡ read text.now) }
{
    match Value::from_str(alloc, text) {
        Ok(value) => Ok(Some(value)),
        Err(error) if error.is_memory() => Err(NoMemory),
        Err(_) => Ok(None),
    }
}

fn query_of_value(alloc: Global, value: &Value) -> Result<Option<Query>, NoMemory>
    ensures { IfOk result (λ query. query ≡ option_and_then query_in (as_object (view value.now))) }
{
    match value.as_object() {
        None => Ok(None),
        Some(members) => query_in(alloc, members),
    }
}

#[tactic(auto, unfolding(crate::specs::Bodies::query_in))]
fn query_in(alloc: Global, members: &Map<String, Value>) -> Result<Option<Query>, NoMemory>
    ensures { IfOk result (λ query. query ≡ query_in (members_view members.now.entries)) }
{
    if has_known_keys(members) {
        query_at(alloc, members)
    } else {
        Ok(None)
    }
}

fn has_known_keys(members: &Map<String, Value>) -> bool
    ensures { result ≡ has_known_keys (members_view members.now.entries) }
{
    for (key, _) in members.iter() {
        if !is_known(key.as_str()) {
            return false;
        }
    }
    true
}

fn is_known(key: &str) -> bool
    ensures { result ≡ list_any (is_same_text key.now) known_keys }
{
    matches!(
        key,
        "fields" | "filters" | "sorts" | "limit" | "fresh" | "format"
    )
}

fn query_at(alloc: Global, members: &Map<String, Value>) -> Result<Option<Query>, NoMemory>
    ensures { IfOk result (λ query. query ≡ query_at (members_view members.now.entries)) }
{
    let fields = fields_in(alloc, member(members, "fields"))?;
    let filters = filters_in(alloc, member(members, "filters"))?;
    let sorts = sorts_in(alloc, member(members, "sorts"))?;
    let limit = limit_in(member(members, "limit"));
    let fresh = fresh_in(member(members, "fresh"));
    let csv = csv_in(member(members, "format"));
    Ok(query_from(fields, filters, sorts, limit, fresh, csv))
}

fn query_from(
    fields: Option<Items<Text>>,
    filters: Option<Items<(Text, Text)>>,
    sorts: Option<Items<(Text, bool)>>,
    limit: Option<i64>,
    fresh: Option<bool>,
    csv: Option<bool>,
) -> Option<Query>
    ensures { result ≡ query_from fields filters sorts limit fresh csv }
{
    Some(Query {
        fields: fields?,
        filters: filters?,
        sorts: sorts?,
        limit: limit?,
        fresh: fresh?,
        csv: csv?,
    })
}

fn fields_in(alloc: Global, value: Option<&Value>) -> Result<Option<Items<Text>>, NoMemory>
    ensures { IfOk result (λ fields. fields
        ≡ fields_in (option_map (λ v. view v.now) value.entry)) }
{
    let Some(value) = value else {
        return Ok(None);
    };
    Ok(if_asked(texts_of(alloc, value)?))
}

// The strings of an array of strings.
fn texts_of(alloc: Global, value: &Value) -> Result<Option<Items<Text>>, NoMemory>
    ensures { IfOk result (λ texts. texts ≡ option_and_then strings_of (as_array (view value.now))) }
{
    match value.as_array() {
        None => Ok(None),
        Some(items) => strings_of(alloc, items.as_slice()),
    }
}

// The names, where they are 1 to 64 and none stands twice.
fn if_asked(names: Option<Items<Text>>) -> Option<Items<Text>>
    ensures { result ≡ option_and_then if_asked names }
{
    let names = names?;
    if !names.is_empty() && names.len() <= 64 && are_different(names.as_slice()) {
        Some(names)
    } else {
        None
    }
}

// A list of at most 64.
fn if_few<T: Drop>(items: Option<Items<T>>) -> Option<Items<T>>
    ensures { result ≡ option_and_then if_few items }
{
    let items = items?;
    if items.len() <= 64 { Some(items) } else { None }
}

fn filters_in(alloc: Global, value: Option<&Value>) -> Result<Option<Items<(Text, Text)>>, NoMemory>
    ensures { IfOk result (λ filters. filters
        ≡ filters_in (option_map (λ v. view v.now) value.entry)) }
{
    let Some(value) = value else {
        return Ok(Some(Items::new(alloc)));
    };
    match value.as_object() {
        None => Ok(None),
        Some(members) => Ok(if_few(pairs_of(alloc, members)?)),
    }
}

fn sorts_in(alloc: Global, value: Option<&Value>) -> Result<Option<Items<(Text, bool)>>, NoMemory>
    ensures { IfOk result (λ sorts. sorts ≡ sorts_in (option_map (λ v. view v.now) value.entry)) }
{
    let Some(value) = value else {
        return Ok(Some(Items::new(alloc)));
    };
    match if_few(texts_of(alloc, value)?) {
        None => Ok(None),
        Some(texts) => Ok(Some(sorts_of(alloc, texts.as_slice())?)),
    }
}

fn limit_in(value: Option<&Value>) -> Option<i64>
    ensures { result ≡ limit_in (option_map (λ v. view v.now) value.entry) }
{
    match value {
        None => Some(500),
        Some(value) => value.as_i64(),
    }
}

fn fresh_in(value: Option<&Value>) -> Option<bool>
    ensures { result ≡ fresh_in (option_map (λ v. view v.now) value.entry) }
{
    match value {
        None => Some(false),
        Some(value) => value.as_bool(),
    }
}

fn csv_in(value: Option<&Value>) -> Option<bool>
    ensures { result ≡ csv_in (option_map (λ v. view v.now) value.entry) }
{
    match value {
        None => Some(false),
        Some(value) => csv_of(value.as_str()?),
    }
}

fn csv_of(word: &str) -> Option<bool>
    ensures { result ≡ csv_of word.now }
{
    match word {
        "json" => Some(false),
        "csv" => Some(true),
        _ => None,
    }
}
