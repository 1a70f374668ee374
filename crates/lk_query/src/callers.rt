// What is looked at before a query's body, and what the caller brings to the access filters.

ghost use Rattle.std.specs.Prelude.{◌≡◌, ◌<◌, IfOk, IfSome, length, position};
ghost use Rattle.lk_val.specs.Memory.{IsUnlessMemory};
ghost use Rattle.lk_val.specs.Texts.{is_same_text};
ghost use Rattle.lk_body.specs.Faults.{is_no_memory};
ghost use Rattle.lk_query.specs.Callers.{access_text, access_texts, explore_named, lacks, user_known};

use crate::names::{field_name, number_of};
use crate::texts::{FilterText, filter_on};
use lk_body::QueryFault;
use lk_schema::{Users, attribute_of, has_user};
use lk_types::{Explore, Model, Pick};
use lk_val::{Items, NoMemory, Text};
use std::alloc::Global;

/// Whether the user is known, or else Q2: the first thing that is asked of a query. (lookd)
pub fn find_user(alloc: Global, users: &Users, user: &Text) -> Result<(), QueryFault>
    ensures { IsUnlessMemory is_no_memory result (user_known users.now user.now) }
{
    if has_user(users, user) {
        Ok(())
    } else {
        Err(QueryFault::Q2(user.copy(alloc)?))
    }
}

/// The number of the explore of a name, or else Q1: what is asked behind the user and before the query's body. (lookd)
pub fn find_explore(alloc: Global, m: &Model, name: &Text) -> Result<u32, QueryFault>
    ensures number { IsUnlessMemory is_no_memory result (explore_named m.now name.now) }
    ensures within { IfOk result (λ n. n < length m.now.explores) }
{
    match explore_place(m.explores.as_slice(), name) {
        Some(place) => Ok(number_of(place)?),
        None => Err(QueryFault::Q1(name.copy(alloc)?)),
    }
}

fn explore_place(explores: &[Explore], name: &Text) -> Option<usize>
    ensures place { result ≡ position (λ x. is_same_text name.now x.name) explores.now }
    ensures within { IfSome result (λ place. place < length explores.now) }
{
    explores.iter().position(|x| *name == x.name)
}

/// The texts of an explore's access filters, as declared: the caller's values of their attributes, or Q5 for the first
/// that the caller lacks. (Looker, LookML reference: access_filter)
pub(crate) fn access_texts(
    alloc: Global,
    x: &Explore,
    users: &Users,
    user: &Text,
) -> Result<Items<FilterText>, QueryFault>
    ensures { IsUnlessMemory is_no_memory result (access_texts x.now users.now user.now) }
{
    let mut texts = Items::new(alloc);
    for access in x.access.as_slice() {
        let Some(text) = access_text(alloc, x, users, user, access)? else {
            return Err(lacks(alloc, x, access)?);
        };
        texts.push(text)?;
    }
    Ok(texts)
}

fn access_text(
    alloc: Global,
    x: &Explore,
    users: &Users,
    user: &Text,
    access: &(u32, Text),
) -> Result<Option<FilterText>, NoMemory>
    ensures { IfOk result (λ text. text ≡ access_text x.now users.now user.now access.now) }
{
    let (field, attribute) = access;
    match attribute_of(users, user, attribute) {
        None => Ok(None),
        Some(text) => {
            let name = field_name(x, *field);
            Ok(Some(filter_on(alloc, x, Pick::Dim(*field), name, text)?))
        }
    }
}

fn lacks(alloc: Global, x: &Explore, access: &(u32, Text)) -> Result<QueryFault, NoMemory>
    ensures { IfOk result (λ fault. fault ≡ lacks x.now access.now) }
{
    let (field, attribute) = access;
    Ok(QueryFault::Q5 {
        field: Text::from_str(alloc, field_name(x, *field))?,
        attribute: attribute.copy(alloc)?,
    })
}
