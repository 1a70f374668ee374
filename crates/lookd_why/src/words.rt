// What the words of the command line ask.

ghost use Rattle.std.specs.Prelude.{◌≡◌};
ghost use Rattle.std.specs.List.{list_any};
ghost use Rattle.lookd_why.specs.Words.{asked_by, has_dash, meaning, plain_words};

use lk_val::Text;

/// Whose query on which explore the words ask about.
#[derive(Drop)]
pub enum Asked<'a> {
    /// The words have no known form.
    Unknown,
    /// A query of this caller on this explore.
    Query(&'a Text, &'a Text),
}

/// What the words `DIR USER EXPLORE` ask, of which none begins with `-`. All others ask nothing that is known.
pub fn read_words<'a>(words: &'a [Text]) -> Asked<'a>
    ensures { meaning result ≡ asked_by words.now }
{
    if have_dash(words) {
        return Asked::Unknown;
    }
    plain_words(words)
}

// Whether a word begins with `-`.
fn have_dash(words: &[Text]) -> bool
    ensures { result ≡ list_any has_dash words.now }
{
    words.iter().any(|word| has_dash(word.as_bytes()))
}

fn plain_words<'a>(words: &'a [Text]) -> Asked<'a>
    ensures { meaning result ≡ plain_words words.now }
{
    match words {
        [_, user, explore] => Asked::Query(user, explore),
        _ => Asked::Unknown,
    }
}

fn has_dash(word: &[u8]) -> bool
    ensures { result ≡ has_dash word.now }
{
    !word.is_empty() && word[0] == b'-'
}
