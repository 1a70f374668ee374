ghost use Rattle.std.specs.Prelude.{◌≡◌};
ghost use Rattle.lk_cell.specs.CellValues.{is_word, truth_cell};

/// The truth value of `yes`, `true`, `no` or `false`, letters in any case.
pub fn read_truth(text: &[u8]) -> Option<bool>
    ensures { result ≡ truth_cell text.now }
{
    if is_word(text, b"yes") || is_word(text, b"true") {
        Some(true)
    } else if is_word(text, b"no") || is_word(text, b"false") {
        Some(false)
    } else {
        None
    }
}

fn is_word(text: &[u8], word: &[u8]) -> bool
    ensures { result ≡ is_word text.now word.now }
{
    match (text, word) {
        ([], []) => true,
        ([a, text @ ..], [b, word @ ..]) => a.eq_ignore_ascii_case(b) && is_word(text, word),
        _ => false,
    }
}
