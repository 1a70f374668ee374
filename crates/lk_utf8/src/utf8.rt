ghost use Rattle.std.specs.Prelude.{◌≡◌, ◌≤◌, ℕ, List, true};
ghost use Rattle.std.specs.List.{AllByRecursion};
ghost use Rattle.std.specs.Str.{is_utf8};
ghost use Rattle.lk_utf8.specs.Utf8.{utf8_after, completes, ending, is_text, is_whole, begun, owed};

/// What a text in UTF-8 owes behind the bytes so far: nothing, or the last bytes of a character.
/// (RFC 3629, section 4)
#[derive(Clone, Copy, Debug, PartialEq, Eq)]
pub enum Utf8 {
    /// Nothing: a character may begin.
    Whole,
    /// One byte from 80 to BF.
    One,
    /// Two bytes from 80 to BF.
    Two,
    /// Three bytes from 80 to BF.
    Three,
    /// A byte from A0 to BF, and one more: less has a character of two bytes.
    BehindE0,
    /// A byte from 80 to 9F, and one more: past it stand surrogates, which are no characters.
    BehindEd,
    /// A byte from 90 to BF, and two more: less has a character of three bytes.
    BehindF0,
    /// A byte from 80 to 8F, and two more: the last character is 10FFFF.
    BehindF4,
}

/// What is owed behind one more byte; none where the byte may not stand there.
/// (RFC 3629, section 4)
pub fn utf8_after(utf8: Utf8, byte: u8) -> Option<Utf8>
    ensures { result ≡ utf8_after utf8 byte }
{
    match utf8 {
        Utf8::Whole => begin_character(byte),
        Utf8::One => owe(0x80, 0xbf, byte, Utf8::Whole),
        Utf8::Two => owe(0x80, 0xbf, byte, Utf8::One),
        Utf8::Three => owe(0x80, 0xbf, byte, Utf8::Two),
        Utf8::BehindE0 => owe(0xa0, 0xbf, byte, Utf8::One),
        Utf8::BehindEd => owe(0x80, 0x9f, byte, Utf8::One),
        Utf8::BehindF0 => owe(0x90, 0xbf, byte, Utf8::Two),
        Utf8::BehindF4 => owe(0x80, 0x8f, byte, Utf8::Two),
    }
}

/// What is owed behind a character's first byte.
fn begin_character(byte: u8) -> Option<Utf8>
    ensures { result ≡ begun byte }
{
    match byte {
        0..=0x7f => Some(Utf8::Whole),
        0xc2..=0xdf => Some(Utf8::One),
        0xe0 => Some(Utf8::BehindE0),
        0xed => Some(Utf8::BehindEd),
        0xe1..=0xef => Some(Utf8::Two),
        0xf0 => Some(Utf8::BehindF0),
        0xf1..=0xf3 => Some(Utf8::Three),
        0xf4 => Some(Utf8::BehindF4),
        _ => None,
    }
}

/// What is owed behind a byte that lies within the bounds.
fn owe(low: u8, high: u8, byte: u8, rest: Utf8) -> Option<Utf8>
    ensures { result ≡ owed low high byte rest }
{
    if low <= byte && byte <= high {
        Some(rest)
    } else {
        None
    }
}

/// Whether nothing is owed: the bytes so far are whole characters. (RFC 3629, section 4)
pub fn is_whole(utf8: Utf8) -> bool
    ensures { result ≡ is_whole utf8 }
{
    matches!(utf8, Utf8::Whole)
}

/// Texts of whole characters by the table of RFC 3629, section 4, are what the standard library
/// takes as UTF-8, and nothing else is.
pub fn whole_characters_are_utf8()
    ensures whole { (text : List ℕ) → is_text text ≡ true → is_utf8 text ≡ true }
    ensures every { (text : List ℕ) → is_utf8 text ≡ true → is_text text ≡ true }
{}

/// Whatever a text owes, some bytes complete it, each 80 or more: so a text goes on behind each byte that `utf8_after`
/// lets stand. (RFC 3629, section 4)
pub fn each_state_has_an_ending()
    ensures completes { (utf8 : Utf8) → completes utf8 (ending utf8) ≡ true }
    ensures high { (utf8 : Utf8) → AllByRecursion (λ b. 128 ≤ b) (ending utf8) }
{}
