ghost use Rattle.std.specs.Prelude.{◌≡◌};
ghost use Rattle.lk_types.specs.Expressions.{ascii_lower};
ghost use Rattle.lk_expr_token.specs.Functions.{function_of, is_of_measures, is_word};

/// A function of expressions.
#[derive(Clone, Copy, PartialEq, Eq)]
pub enum Function {
    Coalesce,
    NullIf,
    Lower,
    Upper,
}

/// The function of a name, in any case. (lookd)
#[tactic(auto, unfolding(crate::specs::Functions::function_of))]
pub fn function_of(name: &[u8]) -> Option<Function>
    ensures { result ≡ function_of name.now }
{
    if is_word(name, b"coalesce") {
        Some(Function::Coalesce)
    } else if is_word(name, b"nullif") {
        Some(Function::NullIf)
    } else if is_word(name, b"lower") {
        Some(Function::Lower)
    } else if is_word(name, b"upper") {
        Some(Function::Upper)
    } else {
        None
    }
}

// Whether a name is these letters, in any case.
fn is_word(name: &[u8], letters: &[u8]) -> bool
    ensures { result ≡ is_word name.now letters.now }
{
    match (name.split_first(), letters.split_first()) {
        (None, None) => true,
        (Some((byte, name)), Some((letter, letters))) => {
            lower(*byte) == *letter && is_word(name, letters)
        }
        _ => false,
    }
}

fn lower(byte: u8) -> u8
    ensures { result ≡ ascii_lower byte }
{
    if byte.is_ascii_uppercase() {
        byte + 32
    } else {
        byte
    }
}

/// Whether a function is one of measures: NULLIF or COALESCE.
pub fn is_of_measures(function: Option<Function>) -> bool
    ensures { result ≡ is_of_measures function }
{
    match function {
        Some(Function::NullIf | Function::Coalesce) => true,
        Some(Function::Lower | Function::Upper) | None => false,
    }
}
