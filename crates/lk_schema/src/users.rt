ghost use Rattle.std.specs.Prelude.{◌≡◌, IfOk, option_map};
ghost use Rattle.lk_val.specs.Memory.{IsUnlessMemory, is_no_memory};
ghost use Rattle.lk_schema.specs.Users.{attribute_in, attribute_line, attribute_of, gives, has_user, is_header, user_as, second_attribute, user_of, users_from, users_of, users_unless, value_in};

use crate::again::{StandsOnce, first_again};
use crate::rows::{TableText, is_same_text, read_rows, row_line};
use lk_csv::read_records;
use lk_val::{Bytes, FaultLine, Items, ModelFault, NoMemory, Text};
use std::alloc::Global;

const FILE: &str = "users.csv";

/// The rows of the users, in order: a user, an attribute and its value. An empty attribute only declares the user.
#[derive(Drop)]
pub struct Users {
    pub rows: Items<(Text, Text, Text)>,
}

/// The users that a text declares. A row of another shape, or with an empty user, is U1, tested over the whole text
/// before an attribute that stands twice for one user (U2). (lookd)
pub fn read_users(alloc: Global, bytes: &[u8]) -> Result<Users, ModelFault>
    ensures { IsUnlessMemory is_no_memory result (users_of bytes.now) }
{
    let records = read_records(alloc, bytes)?;
    users_from(alloc, records.as_slice())
}

fn users_from(alloc: Global, records: &[Items<Bytes>]) -> Result<Users, ModelFault>
    ensures { IsUnlessMemory is_no_memory result (users_from records.now) }
{
    let rows = read_rows(alloc, "U1", FILE, &UsersText, records)?;
    users_over(alloc, rows)
}

fn users_over(alloc: Global, rows: Items<(Text, Text, Text)>) -> Result<Users, ModelFault>
    ensures { IsUnlessMemory is_no_memory result (users_unless (second_attribute rows) rows) }
{
    match second_attribute(alloc, rows.as_slice())? {
        Some(fault) => Err(ModelFault::Fault(fault)),
        None => Ok(Users { rows }),
    }
}

fn second_attribute(
    alloc: Global,
    rows: &[(Text, Text, Text)],
) -> Result<Option<FaultLine>, NoMemory>
    ensures { IfOk result (λ fault. fault ≡ second_attribute rows.now) }
{
    first_again(alloc, &OneAttribute, rows)
}

/// Whether some row has the user.
pub fn has_user(users: &Users, user: &Text) -> bool
    ensures { result ≡ has_user users.now user.now }
{
    users.rows.as_slice().iter().any(|row| row.0 == *user)
}

/// The value of a user's attribute, if the user has it. An empty value counts as none, and an empty attribute is none.
pub fn attribute_of<'a>(users: &'a Users, user: &Text, attribute: &Text) -> Option<&'a Text>
    ensures { option_map (λ value. value.now) result ≡ attribute_of users.now user.now attribute.now }
{
    for row in users.rows.as_slice() {
        if gives(user, attribute, row) {
            return value_in(row);
        }
    }
    None
}

fn gives(user: &Text, attribute: &Text, row: &(Text, Text, Text)) -> bool
    ensures { result ≡ gives user.now attribute.now row.now }
{
    row.0 == *user && row.1 == *attribute && !attribute.is_empty()
}

fn value_in(row: &(Text, Text, Text)) -> Option<&Text>
    ensures { option_map (λ value. value.now) result ≡ value_in row.now }
{
    if row.2.is_empty() { None } else { Some(&row.2) }
}

#[derive(Drop)]
struct UsersText;

impl TableText for UsersText {
    type Row = (Text, Text, Text);

    ghost is_header = { is_header };

    ghost row_of = { user_of };

    fn is_header(&self, fields: &[Bytes]) -> bool {
        match fields {
            [user, attribute, value] => {
                is_same_text(user.as_slice(), b"user")
                    && is_same_text(attribute.as_slice(), b"attribute")
                    && is_same_text(value.as_slice(), b"value")
            }
            _ => false,
        }
    }

    fn row_of(
        &self,
        alloc: Global,
        fields: &[Bytes],
    ) -> Result<Option<(Text, Text, Text)>, NoMemory> {
        match fields {
            [user, attribute, value] => Ok(user_as(
                Text::from_utf8(alloc, user.as_slice())?,
                Text::from_utf8(alloc, attribute.as_slice())?,
                Text::from_utf8(alloc, value.as_slice())?,
            )),
            _ => Ok(None),
        }
    }
}

fn user_as(
    user: Option<Text>,
    attribute: Option<Text>,
    value: Option<Text>,
) -> Option<(Text, Text, Text)>
    ensures { result ≡ user_as user attribute value }
{
    match (user, attribute, value) {
        (Some(user), Some(attribute), Some(value)) => {
            if user.is_empty() {
                None
            } else {
                Some((user, attribute, value))
            }
        }
        _ => None,
    }
}

// A user has each attribute once.
#[derive(Drop)]
struct OneAttribute;

impl StandsOnce for OneAttribute {
    type Row = (Text, Text, Text);

    type Mark = (Text, Text);

    ghost mark_of = { attribute_in };

    ghost line_of = { attribute_line };

    fn mark_of(
        &self,
        alloc: Global,
        row: &(Text, Text, Text),
    ) -> Result<Option<(Text, Text)>, NoMemory> {
        if row.1.is_empty() {
            Ok(None)
        } else {
            Ok(Some((row.0.copy(alloc)?, row.1.copy(alloc)?)))
        }
    }

    fn line_of(
        &self,
        alloc: Global,
        number: usize,
        row: &(Text, Text, Text),
    ) -> Result<FaultLine, NoMemory> {
        row_line(alloc, "U2", FILE, number, row.0.as_str(), row.1.as_str())
    }
}
