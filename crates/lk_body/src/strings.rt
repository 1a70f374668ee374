// What stands in lists and objects of JSON.

ghost use Rattle.std.specs.Prelude.{◌≡◌, IfOk, option_map};
ghost use Rattle.serde_json.specs.Find.{get_member};
ghost use Rattle.serde_json.specs.View.{items_view, members_view, view};
ghost use Rattle.lk_body.specs.Bodies.{pairs_of, strings_of};

use lk_val::{Items, NoMemory, Text};
use serde_json::{Map, Value};
use std::alloc::Global;

/// The strings of a list that holds nothing else.
pub(crate) fn strings_of(alloc: Global, items: &[Value]) -> Result<Option<Items<Text>>, NoMemory>
    ensures { IfOk result (λ texts. texts ≡ strings_of (items_view items.now)) }
{
    let mut texts = Items::new(alloc);
    for item in items {
        match item.as_str() {
            None => return Ok(None),
            Some(text) => texts.push(Text::from_str(alloc, text)?)?,
        }
    }
    Ok(Some(texts))
}

/// The keys and strings of an object that holds nothing else.
pub(crate) fn pairs_of(
    alloc: Global,
    members: &Map<String, Value>,
) -> Result<Option<Items<(Text, Text)>>, NoMemory>
    ensures { IfOk result (λ pairs. pairs ≡ pairs_of (members_view members.now.entries)) }
{
    let mut pairs = Items::new(alloc);
    for (key, member) in members.iter() {
        match member.as_str() {
            None => return Ok(None),
            Some(text) => {
                let key = Text::from_str(alloc, key.as_str())?;
                pairs.push((key, Text::from_str(alloc, text)?))?;
            }
        }
    }
    Ok(Some(pairs))
}

/// The value of a key of an object.
pub(crate) fn member<'v>(members: &'v Map<String, Value>, key: &str) -> Option<&'v Value>
    ensures { option_map (λ v. view v.now) result
        ≡ get_member key.now (members_view members.now.entries) }
{
    members.get(key)
}
