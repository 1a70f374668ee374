ghost use Rattle.std.specs.Prelude.{◌≡◌};
ghost use Rattle.std.specs.Option.{option_map};
ghost use Rattle.std.specs.List.{list_any};
ghost use Rattle.lk_serve.specs.Words.{asked_by, has_dash, is_one, is_script, meaning, plain_words, workers_in, workers_of};

use crate::workers::Workers;
use lk_val::Text;

/// What the words of the command line ask for, after the folder.
#[derive(Drop)]
pub enum Command<'a> {
    /// None of the known commands.
    Unknown,
    /// The first fault of the folder's project.
    Check,
    /// The answer to a query of this caller on this explore.
    Query(&'a Text, &'a Text),
    /// The replies to the requests of the input.
    Script,
    /// The replies to the requests of connections over this folder, by so many workers.
    Serve(&'a Text, Workers),
}

/// The command that the words are: `check DIR`, `query DIR USER EXPLORE`, `script DIR` or `serve DIR ADDRESS WORKERS` with 1 to 16
/// workers, of which no word begins with `-`.
pub fn read_words<'a>(words: &'a [Text]) -> Command<'a>
    ensures { meaning result ≡ asked_by words.now }
{
    if have_dash(words) {
        return Command::Unknown;
    }
    plain_words(words)
}

/// Whether a word begins with `-`.
pub fn have_dash(words: &[Text]) -> bool
    ensures { result ≡ list_any has_dash words.now }
{
    words.iter().any(|word| has_dash(word.as_bytes()))
}

fn plain_words<'a>(words: &'a [Text]) -> Command<'a>
    ensures { meaning result ≡ plain_words words.now }
{
    match words {
        [command, _] if command.as_str() == "check" => Command::Check,
        [command, _] if command.as_str() == "script" => Command::Script,
        [command, _, user, explore] if command.as_str() == "query" => {
            Command::Query(user, explore)
        }
        [command, folder, _, workers] if command.as_str() == "serve" => {
            match workers_of(workers.as_bytes()) {
                Some(workers) => Command::Serve(folder, workers),
                None => Command::Unknown,
            }
        }
        _ => Command::Unknown,
    }
}

// A number of workers: 1 to 16, in decimal without a sign or a leading zero.
fn workers_of(text: &[u8]) -> Option<Workers>
    ensures { option_map (λ workers. workers.count) result ≡ workers_of text.now }
{
    match text {
        [digit] if b'1' <= *digit && *digit <= b'9' => Some(Workers {
            count: usize::from(*digit - b'0'),
        }),
        [ten, digit] if *ten == b'1' && b'0' <= *digit && *digit <= b'6' => Some(Workers {
            count: 10 + usize::from(*digit - b'0'),
        }),
        _ => None,
    }
}

fn has_dash(word: &[u8]) -> bool
    ensures { result ≡ has_dash word.now }
{
    !word.is_empty() && word[0] == b'-'
}

/// Whether the words ask that the requests of the input are served.
pub fn is_script(words: &[Text]) -> bool
    ensures { result ≡ is_script (asked_by words.now) }
{
    matches!(read_words(words), Command::Script)
}

/// By how many workers the words ask that the requests of connections are served, where they do.
pub fn workers_in(words: &[Text]) -> Option<Workers>
    ensures { option_map (λ workers. workers.count) result ≡ workers_in (asked_by words.now) }
{
    match read_words(words) {
        Command::Serve(_, workers) => Some(workers),
        Command::Unknown | Command::Check | Command::Query(..) | Command::Script => None,
    }
}

/// Whether the words ask for one reply.
pub fn is_one(words: &[Text]) -> bool
    ensures { result ≡ is_one (asked_by words.now) }
{
    !is_script(words) && workers_in(words).is_none()
}
