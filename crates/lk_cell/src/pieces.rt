ghost use Rattle.std.specs.Prelude.{◌≡◌, ◌<◌, IfSome, take, drop};
ghost use Rattle.lk_cell.specs.Days.{two_digits};

/// The first bytes of a text, at most so many.
pub fn front(text: &[u8], count: usize) -> &[u8]
    ensures { result.now ≡ take count text.now }
{
    if count < text.len() {
        text.split_at(count).0
    } else {
        text
    }
}

/// The bytes behind the first, none where there are no more than so many.
pub fn behind(text: &[u8], count: usize) -> &[u8]
    ensures { result.now ≡ drop count text.now }
{
    if count < text.len() {
        text.split_at(count).1
    } else {
        &[]
    }
}

/// The number that two characters write, where both are digits.
pub fn two_digits(tens: u8, ones: u8) -> Option<u32>
    ensures value { result ≡ two_digits tens ones }
    ensures small { IfSome result (λ number. number < 100) }
{
    if tens.is_ascii_digit() && ones.is_ascii_digit() {
        Some(10 * u32::from(tens - b'0') + u32::from(ones - b'0'))
    } else {
        None
    }
}
