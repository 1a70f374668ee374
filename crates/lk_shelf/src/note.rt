ghost use Rattle.std.specs.Prelude.{◌≡◌, ◌≤◌, length};
ghost use Rattle.left_right.specs.Sides.{view};

use crate::stand::ShelfReader;
use lk_front::{Entry, Front, Shelves};
use std::marker::Model;

/// What a publish tells: the list that it made. It holds a place at the shelf until a desk has learnt it or it is dropped; a publish
/// waits where all places are taken.
#[derive(Drop)]
pub struct Note<T: Entry, J: Shelves> {
    pub(crate) reader: ShelfReader<T, J>,
    pub(crate) front: Front<T, J>,
}

impl<T: Entry, J: Shelves> Model for Note<T, J> {
    ghost use Rattle.std.specs.Prelude.{◌≤◌, List, length};
    ghost use Rattle.left_right.specs.Sides.{view as seat_view};

    ghost Value = { List T };

    ghost view = { λ note. note.front };

    ghost invariant = { λ note. length note.front ≤ seat_view note.reader.place };
}

impl<T: Entry, J: Shelves> Note<T, J> {
    pub(crate) fn new(reader: ShelfReader<T, J>, front: Front<T, J>) -> Note<T, J>
        requires { length front ≤ view reader.place }
        ensures { result ≡ front }
    {
        Note { reader, front }
    }

    /// How many values its list has.
    pub fn len(&self) -> u64
        ensures { result ≡ length self.now }
    {
        self.front.len()
    }
}
