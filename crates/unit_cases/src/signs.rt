use crate::fault::CaseFault;
use lk_grammar::{Word, read_words};
use lk_val::as_text;
use std::alloc::Global;

// A word of the table, by its letters.
#[derive(Clone, Copy)]
struct Sign {
    letters: &'static [u8],
}

impl Word for Sign {
    ghost letters_of = { λ sign. sign.letters.now };

    fn letters(&self) -> &'static [u8] {
        self.letters
    }
}

/// Adds the words `<=`, `<`, `not` and `,` that a text spells, with a space behind each.
pub fn add_signs(alloc: Global, text: &str, line: &mut String) -> Result<(), CaseFault> {
    let table = [
        Sign { letters: b"<=" },
        Sign { letters: b"<" },
        Sign { letters: b"not" },
        Sign { letters: b"," },
    ];
    match read_words(alloc, b" ", &table, text.as_bytes())? {
        Some(signs) => push_signs(signs.as_slice(), line),
        None => Ok(line.push_str("no words")?),
    }
}

fn push_signs(signs: &[Sign], line: &mut String) -> Result<(), CaseFault> {
    for sign in signs {
        line.push_str(as_text(sign.letters).ok_or(CaseFault::NoSuchCase)?)?;
        line.push_str(" ")?;
    }
    Ok(())
}
