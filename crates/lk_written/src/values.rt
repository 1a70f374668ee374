ghost use Rattle.std.specs.Prelude.{◌≡◌, IfOk, option_map};
ghost use Rattle.lk_written.specs.Values.{code_at, is_missing, is_no_truth, is_text, is_yes, text_at};

use lk_params::{code, last_named, scalar};
use lk_read::Item;
use lk_val::{NoMemory, Text};
use std::alloc::Global;

/// The text of a parameter that counts, if it is a word or a string.
pub fn text_at<'a>(name: &str, items: &'a [Item]) -> Option<&'a Text>
    ensures { option_map (λ t. t.now) result ≡ text_at name.now items.now }
{
    match last_named(name, items) {
        None => None,
        Some(item) => scalar(&item.value),
    }
}

/// The code of a parameter that counts.
pub fn code_at<'a>(name: &str, items: &'a [Item]) -> Option<&'a Text>
    ensures { option_map (λ t. t.now) result ≡ code_at name.now items.now }
{
    match last_named(name, items) {
        None => None,
        Some(item) => code(&item.value),
    }
}

/// Whether a value is `yes`.
pub fn is_yes(value: Option<&Text>) -> bool
    ensures { result ≡ is_yes (option_map (λ t. t.now) value.entry) }
{
    match value {
        None => false,
        Some(text) => text.as_str() == "yes",
    }
}

/// Whether a value is neither `yes` nor `no`.
pub fn is_no_truth(value: Option<&Text>) -> bool
    ensures { result ≡ is_no_truth (option_map (λ t. t.now) value.entry) }
{
    match value {
        None => true,
        Some(text) => !(text.as_str() == "yes" || text.as_str() == "no"),
    }
}

/// Whether a value is this text.
pub fn is_text(wanted: &str, value: Option<&Text>) -> bool
    ensures { result ≡ is_text wanted.now (option_map (λ t. t.now) value.entry) }
{
    match value {
        None => false,
        Some(text) => text.as_str() == wanted,
    }
}

/// Whether a parameter is not there.
pub fn is_missing(name: &str, items: &[Item]) -> bool
    ensures { result ≡ is_missing name.now items.now }
{
    last_named(name, items).is_none()
}

/// A text of its own, where there is one.
pub fn copied_text(alloc: Global, text: Option<&Text>) -> Result<Option<Text>, NoMemory>
    ensures { IfOk result (λ copy. copy ≡ option_map (λ t. t.now) text.entry) }
{
    match text {
        None => Ok(None),
        Some(text) => Ok(Some(text.copy(alloc)?)),
    }
}
