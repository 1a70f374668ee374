ghost use Rattle.std.specs.Prelude.{◌≡◌, ◌<◌, IfSome, length, take, codes};
ghost use Rattle.std.specs.List.{list_all, position};
ghost use Rattle.lk_val.specs.Texts.{is_same_text};
ghost use Rattle.lk_read.specs.Bytes.{is_space, is_name_byte, is_word_byte, is_name, is_title, is_key, is_dot, is_code_name};

/// Whether a byte is white space: a space, a tab, a carriage return or a line feed. (lookd)
pub(crate) fn is_space(byte: u8) -> bool
    ensures { result ≡ is_space byte }
{
    byte == b' ' || byte == b'\t' || byte == b'\r' || byte == b'\n'
}

/// Whether a byte may stand in a name.
pub(crate) fn is_name_byte(byte: u8) -> bool
    ensures { result ≡ is_name_byte byte }
{
    (b'a' <= byte && byte <= b'z')
        || (b'A' <= byte && byte <= b'Z')
        || (b'0' <= byte && byte <= b'9')
        || byte == b'_'
}

/// Whether a byte may stand in a bare word.
pub(crate) fn is_word_byte(byte: u8) -> bool
    ensures { result ≡ is_word_byte byte }
{
    is_name_byte(byte) || byte == b'.' || byte == b'*' || byte == b'+' || byte == b'-'
}

/// Whether a text is a name: one byte of a name or more.
pub(crate) fn is_name(text: &[u8]) -> bool
    ensures { result ≡ is_name text.now }
{
    !text.is_empty() && are_name_bytes(text)
}

/// Whether each byte may stand in a name.
fn are_name_bytes(text: &[u8]) -> bool
    ensures { result ≡ list_all is_name_byte text.now }
{
    text.iter().all(|byte| is_name_byte(*byte))
}

/// Whether a word may be a block's name: a name, which may have a `+` before it.
pub(crate) fn is_title(text: &[u8]) -> bool
    ensures { result ≡ is_title text.now }
{
    match text.split_first() {
        None => false,
        Some((first, rest)) => {
            if *first == b'+' {
                is_name(rest)
            } else {
                is_name(text)
            }
        }
    }
}

/// Whether a word may be the name of a pair: a name, or two with a dot between them.
pub(crate) fn is_key(text: &[u8]) -> bool
    ensures { result ≡ is_key text.now }
{
    match first_dot(text) {
        None => is_name(text),
        Some(dot) => is_name(&text[..dot]) && is_name(&text[dot + 1..]),
    }
}

/// The place of the first dot, if there is one.
fn first_dot(text: &[u8]) -> Option<usize>
    ensures dot { result ≡ position is_dot text.now }
    ensures within { IfSome result (λ dot. dot < length text.now) }
{
    text.iter().position(|byte| *byte == b'.')
}

/// Whether a parameter of this name has code for its value.
pub(crate) fn is_code_name(name: &[u8]) -> bool
    ensures { result ≡ is_code_name name.now }
{
    is_same(name, b"sql")
        || is_same(name, b"html")
        || is_same(name, b"expression")
        || begins_sql(name)
}

/// Whether a name begins with `sql_`.
fn begins_sql(name: &[u8]) -> bool
    ensures { result ≡ is_same_text (take 4 name.now) (codes "sql_") }
{
    match name.get(..4) {
        Some(front) => is_same(front, b"sql_"),
        None => false,
    }
}

/// Whether two texts have the same bytes.
fn is_same(text: &[u8], other: &[u8]) -> bool
    ensures { result ≡ is_same_text text.now other.now }
{
    text == other
}
