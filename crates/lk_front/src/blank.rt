ghost use Rattle.std.specs.Prelude.{◌≡◌, []};
ghost use Rattle.lk_front.specs.Rules.{word_of};

use crate::beginning::{Front, Head};
use crate::rule::{Entry, Law, Shelves};
use logbook::{Seen, Start, Word};

/// A list without values, before it has a name.
#[derive(Drop)]
pub struct Blank<T: Entry> {
    word: Word<T, u64, Law>,
    seen: Seen<T, u64, Law>,
    pub ghost empty: { seen.log ≡ [] },
    pub ghost word_is: { word ≡ word_of seen.book },
}

impl<T: Entry> Blank<T> {
    /// A list of its own. It takes no memory.
    pub fn new() -> Blank<T> {
        let (seen, mut first, _) = Seen::open(Start::alone(), 0, 0);
        Blank {
            word: Word::tracked(0, &mut first),
            seen,
        }
    }

    /// The list under a name: the word that counts its values, and the beginning that has none of them.
    pub fn named<J: Shelves>(self) -> (Head<T, J>, Front<T, J>)
        requires { self.seen.book ≡ J.book }
        ensures { result.1 ≡ [] }
    {
        let Blank { word, seen } = self;
        (Head::new(word), Front::first(seen))
    }
}
