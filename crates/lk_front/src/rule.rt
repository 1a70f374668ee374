// What stands in the list, and how it may grow.

use logbook::{Gain, Plain, Play, Rule};
use std::marker::Brand;

/// A value of a list: an edition, say, with what the first one has to be and what may come behind another.
pub trait Entry: Drop {
    /// What holds of the first value.
    ghost begins: { Self → Type 0 };

    /// What holds of a value and the one behind it.
    ghost follows: { Self → Self → Type 0 };
}

/// The list grows at its end alone, by a value that may stand there, and a word counts its values.
pub struct Law;

impl<T: Entry> Rule<T, u64> for Law {
    ghost use Rattle.std.specs.Prelude.{[]};
    ghost use base.Fml.{ftrue};
    ghost use Rattle.lk_front.specs.Rules.{IsCounted};

    ghost holds = { λ cells log. IsCounted T.begins T.follows cells log };

    ghost first = { [] };

    ghost hinted = { λ n log. Unit {0} };

    ghost shows = { λ log. [] };

    ghost keeps = { λ names log. ftrue };

    ghost moves = { λ ask before after answer. Unit {0} };
}

/// Whoever adds a value gains nothing besides.
pub struct Nothing;

impl<T: Entry> Gain<T, u64> for Nothing {
    ghost use base.Fml.{ftrue};

    ghost after = { λ names about answer. ftrue };
}

/// The step by which the list grows.
pub struct Add;

impl<T: Entry> Play<T, u64> for Add {
    ghost use Rattle.lk_front.specs.Rules.{Adds};

    ghost then = { Adds T.begins T.follows };
}

impl<T: Entry> Plain<T, T, u64> for Add {
    ghost use Rattle.std.specs.Prelude.{None};

    ghost ask = { λ value. value };

    ghost state = { λ value. None };
}

/// Names a list, so that beginnings of different ones have different types. Each run picks its own.
pub trait Shelves {
    ghost use Rattle.logbook.specs.Pages.{Book};

    /// The book in which the list stands.
    ghost book: { Book };
}

impl Shelves for Brand {
    ghost book = { record { number = 0; log_name = 0; cells_name = 0 } };
}
