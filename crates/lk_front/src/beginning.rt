// Beginnings of a list.

ghost use Rattle.std.specs.Prelude.{◌≡◌, ◌+◌, ◌<◌, ◌≤◌, ◌^◌, ◌==◌, ◌++◌, ◌∷◌, [], length, MatchBool};
ghost use mathlib.Core.List.{IsPrefix};
ghost use Rattle.lk_front.specs.Chains.{IsChain};
ghost use Rattle.lk_front.specs.Rules.{word_of};

use crate::rule::{Add, Entry, Law, Nothing, Shelves};
use logbook::{Offer, Seen, Word};
use std::marker::{Model, PhantomData};

/// The word that counts the values of a list.
#[derive(Drop)]
pub struct Head<T: Entry, J: Shelves> {
    word: Word<T, u64, Law>,
    of: PhantomData<J>,
    ghost word_is: { word ≡ word_of J.book },
}

impl<T: Entry, J: Shelves> Head<T, J> {
    pub(crate) fn new(word: Word<T, u64, Law>) -> Head<T, J>
        requires { word ≡ word_of J.book }
    {
        Head {
            word,
            of: PhantomData,
        }
    }
}

/// A beginning of a list: in contracts its values, in memory how many they are. What one party has seen another can compare with
/// what it has seen itself, since both are beginnings of one list. (lookd)
#[derive(Drop)]
pub struct Front<T: Entry, J: Shelves> {
    len: u64,
    seen: Seen<T, u64, Law>,
    of: PhantomData<J>,
}

impl<T: Entry, J: Shelves> Model for Front<T, J> {
    ghost use Rattle.std.specs.Prelude.{◌≡◌, List, length};
    ghost use Rattle.lk_front.specs.Chains.{IsChain};

    ghost Value = { List T };

    ghost view = { λ front. front.seen.log };

    ghost invariant = { λ front. (front.len ≡ length front.seen.log) × (front.seen.book ≡ J.book) × IsChain T.begins T.follows front.seen.log };
}

impl<T: Entry, J: Shelves> Front<T, J> {
    // The beginning without values.
    pub(crate) fn first(seen: Seen<T, u64, Law>) -> Front<T, J>
        requires empty { seen.log ≡ [] }
        requires book { seen.book ≡ J.book }
        ensures { result ≡ [] }
    {
        Front {
            len: 0,
            seen,
            of: PhantomData,
        }
    }

    /// How many values it has.
    pub fn len(&self) -> u64
        ensures length { result ≡ length self.now }
        ensures chain { IsChain T.begins T.follows self.now }
    {
        self.len
    }

    /// The same beginning once more.
    pub fn again(&self) -> Front<T, J>
        ensures { result ≡ self.now }
    {
        Front {
            len: self.len,
            seen: self.seen.again(),
            of: PhantomData,
        }
    }

    /// Of two beginnings of one list the one that is no longer begins the other. A law: it computes nothing that is kept.
    pub fn compare(&self, other: &Front<T, J>)
        ensures { length self.now ≤ length other.now → IsPrefix self.now other.now }
    {
        let mut both = self.seen.again();
        both.learn(&other.seen);
    }

    /// Adds a value behind all that was seen, where nothing else stands there yet, and says whether it did. It takes no memory.
    pub fn add(&mut self, head: &Head<T, J>, value: &T) -> bool
        requires room { length self.old < 2 ^ 63 }
        requires chain { IsChain T.begins T.follows (self.old ++ value.now ∷ []) }
        ensures { MatchBool result (self.new ≡ self.old ++ value.now ∷ []) (self.new ≡ self.old) }
    {
        let mut seen = self.seen.again();
        let mut offer: Offer<T, u64, Law, Nothing> = seen.plain::<Nothing, T, Add>(value);
        let mut pen = seen.no_pen();
        let len = self.len;
        let found = head
            .word
            .compare_exchange::<Add, Nothing>(len, len + 1, &mut seen, &mut offer, &mut pen);
        if found != len {
            return false;
        }
        self.len = len + 1;
        self.seen = seen;
        true
    }
}
