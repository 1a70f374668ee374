// A list of numbers that is there in clauses alone.

ghost use Rattle.std.specs.Prelude.{◌≡◌, ◌<◌, ◌^◌, ◌++◌, ◌∷◌, [], length, MatchBool};
ghost use Rattle.lk_front.specs.Rules.{word_of};

use logbook::{Gain, Offer, Plain, Play, Rule, Seen, Start, Word};
use std::marker::Model;

// The rule of the list: its word counts it.
pub(crate) struct Counted;

impl Rule<u64, u64> for Counted {
    ghost use Rattle.std.specs.Prelude.{[]};
    ghost use base.Fml.{ftrue};
    ghost use Rattle.lk_shelf.specs.Counts.{IsCountOf};

    ghost holds = { λ cells numbers. IsCountOf cells numbers };

    ghost first = { [] };

    ghost hinted = { λ number numbers. Unit {0} };

    ghost shows = { λ numbers. [] };

    ghost keeps = { λ names numbers. ftrue };

    ghost moves = { λ ask before after answer. Unit {0} };
}

// Whoever adds a number gains nothing besides.
pub(crate) struct Nothing;

impl Gain<u64, u64> for Nothing {
    ghost use base.Fml.{ftrue};

    ghost after = { λ names about answer. ftrue };
}

// The step by which the list grows.
pub(crate) struct Add;

impl Play<u64, u64> for Add {
    ghost use Rattle.lk_shelf.specs.Counts.{Grows};

    ghost then = { Grows };
}

impl Plain<u64, u64, u64> for Add {
    ghost use Rattle.std.specs.Prelude.{None};

    ghost ask = { λ number. number };

    ghost state = { λ number. None };
}

// The list, with the word that counts it.
#[derive(Drop)]
pub(crate) struct Tally {
    word: Word<u64, u64, Counted>,
    seen: Seen<u64, u64, Counted>,
    ghost word_is: { word ≡ word_of seen.book },
}

// The numbers, which only grow. In memory it is how many there are.
#[derive(Drop)]
pub(crate) struct Numbers {
    count: u64,
    tally: Tally,
}

impl Model for Numbers {
    ghost use Rattle.std.specs.Prelude.{◌≡◌, ℕ, List, length};

    ghost Value = { List ℕ };

    ghost view = { λ numbers. numbers.tally.seen.log };

    ghost invariant = { λ numbers. numbers.count ≡ length numbers.tally.seen.log };
}

impl Tally {
    // Adds a number behind so many, and says whether it did: it does where there are so many.
    fn add(&mut self, count: u64, number: u64) -> bool
        requires { (count ≡ length self.old.seen.log) × (count < 2 ^ 63) }
        ensures { MatchBool result (self.new.seen.log ≡ self.old.seen.log ++ number ∷ []) (self.new ≡ self.old) }
    {
        let mut seen = self.seen.again();
        let mut offer: Offer<u64, u64, Counted, Nothing> = seen.plain::<Nothing, u64, Add>(&number);
        let mut pen = seen.no_pen();
        let found = self
            .word
            .compare_exchange::<Add, Nothing>(count, count + 1, &mut seen, &mut offer, &mut pen);
        if found != count {
            return false;
        }
        self.seen = seen;
        true
    }
}

impl Numbers {
    pub(crate) fn new() -> Numbers
        ensures { result ≡ [] }
    {
        let (seen, mut first, _) = Seen::open(Start::alone(), 0, 0);
        Numbers {
            count: 0,
            tally: Tally {
                word: Word::tracked(0, &mut first),
                seen,
            },
        }
    }

    // Adds a number, and says whether it did. It takes no memory; 2^63 numbers are the most.
    pub(crate) fn add(&mut self, number: u64) -> bool
        ensures { MatchBool result (self.new ≡ self.old ++ number ∷ []) (self.new ≡ self.old) }
    {
        if self.count > i64::MAX as u64 || !self.tally.add(self.count, number) {
            return false;
        }
        self.count += 1;
        true
    }
}
