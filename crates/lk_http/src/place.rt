ghost use Rattle.std.specs.Prelude.{◌≡◌, true, IfSome};
ghost use Rattle.lk_http.specs.Places.{IsMove, IsStep};
ghost use Rattle.lk_http.specs.declared.place.Place.{Place};

use httparse::{is_header_value_token, is_method_token, is_uri_token};

// Where in a head its last byte stands, as far as that was followed.
#[derive(Clone, Copy, PartialEq, Eq)]
pub(crate) enum Place {
    /// Among the empty lines before the request line.
    Blank,
    /// In a carriage return among them.
    BlankReturn,
    Method,
    Target,
    /// In what follows the target in the request line.
    Version,
    /// At the end of the request line or of a field.
    Line,
    Name,
    Value,
    /// In a carriage return behind a value.
    ValueReturn,
    /// Elsewhere.
    Other,
}

impl Place {
    // The place of a byte that may stand behind this one and decides nothing.
    pub(crate) fn step(self, byte: u8) -> Option<Place>
        ensures { IfSome result (λ next. IsStep self byte next) }
    {
        match self {
            Place::Blank => step_blank(byte),
            Place::BlankReturn => step_if(byte == b'\n', Place::Blank),
            Place::Method if byte == b' ' => Some(Place::Target),
            Place::Method => step_if(is_method_token(byte), Place::Method),
            Place::Target => step_if(is_uri_token(byte), Place::Target),
            Place::Line => step_if(is_method_token(byte), Place::Name),
            Place::Name if byte == b':' => Some(Place::Value),
            Place::Name => step_if(is_method_token(byte), Place::Name),
            Place::Value if byte == b'\r' => Some(Place::ValueReturn),
            Place::Value => step_if(is_header_value_token(byte), Place::Value),
            Place::Version | Place::ValueReturn | Place::Other => None,
        }
    }

    // The place of a byte behind this one, where the head is open with it.
    pub(crate) fn after(self, byte: u8) -> Place
        ensures { IsMove self byte result }
    {
        match self {
            Place::Target if byte == b' ' => Place::Version,
            Place::Version if byte != b'\n' => Place::Version,
            Place::Version | Place::Value | Place::ValueReturn if byte == b'\n' => Place::Line,
            _ => Place::Other,
        }
    }
}

fn step_blank(byte: u8) -> Option<Place>
    ensures { IfSome result (λ next. IsStep Place.Blank byte next) }
{
    match byte {
        b'\n' => Some(Place::Blank),
        b'\r' => Some(Place::BlankReturn),
        _ => step_if(is_method_token(byte), Place::Method),
    }
}

fn step_if(stands: bool, next: Place) -> Option<Place>
    ensures { IfSome result (λ place. (place ≡ next) × (stands ≡ true)) }
{
    if stands { Some(next) } else { None }
}
