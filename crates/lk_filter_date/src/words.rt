ghost use Rattle.std.specs.Prelude.{◌≡◌};
ghost use Rattle.lk_filter_date.specs.Dates.{unit_letters};

use lk_grammar::Word;
use lk_types::Period;

/// Whether a unit is written in the plural.
#[derive(Clone, Copy)]
pub(crate) enum Plurality {
    Plural,
    Singular,
}

/// The words of filters of dates.
#[derive(Clone, Copy)]
pub(crate) enum DateWord {
    Before,
    After,
    Today,
    To,
    Yesterday,
    This,
    Last,
    Ago,
    Null,
    Not,
    Comma,
    Unit(Period, Plurality),
}

/// The words, each before those that begin it.
pub(crate) const DATE_WORDS: [DateWord; 21] = [
    DateWord::Before,
    DateWord::After,
    DateWord::Today,
    DateWord::To,
    DateWord::Yesterday,
    DateWord::This,
    DateWord::Last,
    DateWord::Ago,
    DateWord::Null,
    DateWord::Not,
    DateWord::Comma,
    DateWord::Unit(Period::Day, Plurality::Plural),
    DateWord::Unit(Period::Day, Plurality::Singular),
    DateWord::Unit(Period::Week, Plurality::Plural),
    DateWord::Unit(Period::Week, Plurality::Singular),
    DateWord::Unit(Period::Month, Plurality::Plural),
    DateWord::Unit(Period::Month, Plurality::Singular),
    DateWord::Unit(Period::Quarter, Plurality::Plural),
    DateWord::Unit(Period::Quarter, Plurality::Singular),
    DateWord::Unit(Period::Year, Plurality::Plural),
    DateWord::Unit(Period::Year, Plurality::Singular),
];

impl Word for DateWord {
    ghost use Rattle.lk_filter_date.specs.Dates.{letters_of};

    ghost letters_of = { letters_of };

    fn letters(&self) -> &'static [u8] {
        match self {
            DateWord::Before => b"before",
            DateWord::After => b"after",
            DateWord::Today => b"today",
            DateWord::To => b"to",
            DateWord::Yesterday => b"yesterday",
            DateWord::This => b"this",
            DateWord::Last => b"last",
            DateWord::Ago => b"ago",
            DateWord::Null => b"null",
            DateWord::Not => b"not",
            DateWord::Comma => b",",
            DateWord::Unit(period, plurality) => unit_letters(*period, *plurality),
        }
    }
}

/// The letters of a unit, in the plural or not.
pub(crate) fn unit_letters(period: Period, plurality: Plurality) -> &'static [u8]
    ensures { result.now ≡ unit_letters period plurality }
{
    match (period, plurality) {
        (Period::Day, Plurality::Plural) => b"days",
        (Period::Day, Plurality::Singular) => b"day",
        (Period::Week, Plurality::Plural) => b"weeks",
        (Period::Week, Plurality::Singular) => b"week",
        (Period::Month, Plurality::Plural) => b"months",
        (Period::Month, Plurality::Singular) => b"month",
        (Period::Quarter, Plurality::Plural) => b"quarters",
        (Period::Quarter, Plurality::Singular) => b"quarter",
        (Period::Year, Plurality::Plural) => b"years",
        (Period::Year, Plurality::Singular) => b"year",
    }
}
