// The texts of sorts.

ghost use Rattle.std.specs.Prelude.{◌≡◌, IfOk, map, option_map};
ghost use Rattle.lk_body.specs.Sorts.{before_end, sort_of, sort_with};

use lk_val::{Items, NoMemory, Text};
use std::alloc::Global;

/// The sorts that texts are.
pub(crate) fn sorts_of(alloc: Global, texts: &[Text]) -> Result<Items<(Text, bool)>, NoMemory>
    ensures { IfOk result (λ sorts. sorts ≡ map sort_of texts.now) }
{
    let mut sorts = Items::new(alloc);
    for text in texts {
        sorts.push(sort_of(alloc, text.as_str())?)?;
    }
    Ok(sorts)
}

// The name that a sort's text is, with ` asc` or ` desc` taken off once, and whether it descends.
fn sort_of(alloc: Global, text: &str) -> Result<(Text, bool), NoMemory>
    ensures { IfOk result (λ sort. sort ≡ sort_of text.now) }
{
    let descending = before_end(" desc", text);
    let ascending = before_end(" asc", text);
    sort_with(alloc, descending, ascending, text)
}

fn sort_with(
    alloc: Global,
    descending: Option<&str>,
    ascending: Option<&str>,
    text: &str,
) -> Result<(Text, bool), NoMemory>
    ensures { IfOk result (λ sort. sort
        ≡ sort_with (option_map (λ name. name.now) descending.entry)
        (option_map (λ name. name.now) ascending.entry) text.now) }
{
    match (descending, ascending) {
        (Some(name), _) => Ok((Text::from_str(alloc, name)?, true)),
        (None, Some(name)) => Ok((Text::from_str(alloc, name)?, false)),
        (None, None) => Ok((Text::from_str(alloc, text)?, false)),
    }
}

fn before_end<'a>(end: &str, text: &'a str) -> Option<&'a str>
    ensures { option_map (λ name. name.now) result ≡ before_end end.now text.now }
{
    text.strip_suffix(end)
}
