ghost use Rattle.std.specs.Prelude.{◌≡◌, ◌≤◌, ◌⊎◌, ◌++◌, ◌∷◌, [], length, IfOk, OnOk, OnErr, MatchBool, MatchOption};
ghost use Rattle.std.specs.Arc.{arc_value};
ghost use mathlib.Core.List.{IsPrefix};
ghost use Rattle.left_right.specs.Sides.{view};
ghost use Rattle.lk_front.specs.Chains.{EndsIn, IsChain};
ghost use Rattle.lk_shelf.specs.Lists.{Learns};

use crate::looks::Numbers;
use crate::note::Note;
use crate::stand::{Look, ShelfReader};
use core::mem::replace_with;
use lk_front::{Entry, Front, Shelves};
use lk_val::NoMemory;
use std::alloc::AllocError;
use std::collections::LinkedList;
use std::marker::Model;
use std::sync::Arc;

/// What contracts see of a desk: the list that it has seen, and how long it was at each look, in order. No value of it is made.
pub struct View<T> {
    pub seen: LinkedList<T>,
    pub looks: LinkedList<u64>,
}

/// A reader's place at the shelf. Contracts see it as its `View`.
#[derive(Drop)]
pub struct Desk<T: Entry, J: Shelves> {
    reader: ShelfReader<T, J>,
    front: Front<T, J>,
    looks: Numbers,
}

impl<T: Entry, J: Shelves> Model for Desk<T, J> {
    ghost use Rattle.std.specs.Prelude.{◌≤◌, List, length};
    ghost use Rattle.left_right.specs.Sides.{view as seat_view};
    ghost use Rattle.lk_shelf.specs.declared.desk.View.{View};

    ghost Value = { View T };

    ghost view = { λ desk. record { seen = desk.front; looks = desk.looks } };

    ghost invariant = { λ desk. length desk.front ≤ seat_view desk.reader.place };
}

// What is shown: the value, unless its shares have run out, and the list that ends in it.
type Sight<T, J> = (Result<Arc<T>, AllocError>, Front<T, J>);

// Takes what is shown, and nothing where the publisher is gone.
fn look<T: Entry, J: Shelves>(reader: ShelfReader<T, J>) -> (ShelfReader<T, J>, Option<Sight<T, J>>)
    ensures { MatchOption result.1 (view result.0.place ≡ view reader.place) (λ sight. (view reader.place ≤ length sight.1) × (view result.0.place ≡ length sight.1) × IfOk sight.0 (λ value. EndsIn sight.1 (arc_value value))) }
{
    match reader.enter_as::<Look>() {
        Err(reader) => (reader, None),
        Ok(reading) => {
            let stand = reading.get();
            let value = Arc::try_clone(&stand.value);
            let front = stand.front.again();
            (reading.leave(), Some((value, front)))
        }
    }
}

// Counts a look, and puts the list that it saw in place of the one that had been seen. Where there were 2^63 looks both stay.
fn note_look<T: Entry, J: Shelves>(
    front: &mut Front<T, J>,
    next: Front<T, J>,
    looks: &mut Numbers,
) -> bool
    requires { length front.old ≤ length next }
    ensures front { MatchBool result (front.new ≡ next) (front.new ≡ front.old) }
    ensures later { IsPrefix front.old front.new }
    ensures chain { IsChain T.begins T.follows front.new }
    ensures looks { MatchBool result (looks.new ≡ looks.old ++ length front.new ∷ []) (looks.new ≡ looks.old) }
{
    front.compare(&next);
    front.len();
    if !looks.add(next.len()) {
        front.compare(front);
        return false;
    }
    *front = next;
    true
}

impl<T: Entry, J: Shelves> Desk<T, J> {
    pub(crate) fn new(reader: ShelfReader<T, J>, front: Front<T, J>) -> Desk<T, J>
        requires { length front ≤ view reader.place }
        ensures { result ≡ record { seen = front; looks = [] } }
    {
        Desk {
            reader,
            front,
            looks: Numbers::new(),
        }
    }

    // A beginning of the list that is no shorter begins with what this desk has seen.
    pub(crate) fn compare_front(&self, front: &Front<T, J>)
        ensures { length self.now.seen ≤ length front.now → IsPrefix self.now.seen front.now }
    {
        self.front.compare(front);
    }

    /// How many values it has seen.
    pub fn len(&self) -> u64
        ensures length { result ≡ length self.now.seen }
        ensures chain { IsChain T.begins T.follows self.now.seen }
    {
        self.front.len()
    }

    /// Of two desks what the one has seen begins what the other has, where it is no longer. A law: it computes nothing that is kept.
    pub fn compare(&self, other: &Desk<T, J>)
        ensures { length self.now.seen ≤ length other.now.seen → IsPrefix self.now.seen other.now.seen }
    {
        self.front.compare(&other.front);
    }

    /// The value that is shown, shared: the last of the list that has then been seen. It waits for nobody and takes no memory. It
    /// answers want of memory where the publisher is gone, where a value has 2^63 owners, and past 2^63 looks.
    pub fn current(&mut self) -> Result<Arc<T>, NoMemory>
        ensures later { IsPrefix self.old.seen self.new.seen }
        ensures chain { IsChain T.begins T.follows self.new.seen }
        ensures last { IfOk result (λ value. EndsIn self.new.seen (arc_value value)) }
        ensures look { OnOk result (self.new.looks ≡ self.old.looks ++ length self.new.seen ∷ []) }
        ensures none { OnErr result ((self.new ≡ self.old) ⊎ (self.new.looks ≡ self.old.looks ++ length self.new.seen ∷ [])) }
    {
        let sight = replace_with(
            &mut self.reader,
            (),
            |reader: ShelfReader<T, J>, _unit: ()| -> (ShelfReader<T, J>, Option<Sight<T, J>>)
                ensures { MatchOption result.1 (view result.0.place ≡ view reader.place) (λ sight. (view reader.place ≤ length sight.1) × (view result.0.place ≡ length sight.1) × IfOk sight.0 (λ value. EndsIn sight.1 (arc_value value))) }
            { look(reader) },
        );
        let Some((value, front)) = sight else {
            self.front.len();
            return Err(NoMemory);
        };
        if !note_look(&mut self.front, front, &mut self.looks) {
            return Err(NoMemory);
        }
        Ok(value?)
    }

    /// Takes in what a publish told. It waits for nobody and takes no memory.
    pub fn learn(&mut self, note: Note<T, J>)
        ensures seen { Learns self.old.seen note self.new.seen }
        ensures looks { self.new.looks ≡ self.old.looks }
    {
        let Note { reader, front } = note;
        if self.front.len() < front.len() {
            self.front.compare(&front);
            self.reader = reader;
            self.front = front;
        } else {
            front.compare(&self.front);
        }
    }
}
