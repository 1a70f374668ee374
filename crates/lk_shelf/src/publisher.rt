ghost use Rattle.std.specs.Prelude.{◌≡◌, ◌<◌, ◌≤◌, ◌^◌, ◌++◌, ◌∷◌, [], length, drop, Some, None, IfOk, OnOk, OnErr, IfSome, IsSome};
ghost use Rattle.left_right.specs.Sides.{view};
ghost use Rattle.std.specs.Arc.{arc_value};
ghost use mathlib.Core.List.{IsPrefix};
ghost use Rattle.lk_front.specs.Chains.{EndsIn, IsChain};

use crate::desk::Desk;
use crate::note::Note;
use crate::stand::{ShelfWriter, Stand};
use crate::steps::{add, new_reader, show, wait_for_reader};
use core::mem::replace_with;
use left_right::Absorb;
use left_right::writer::Writer;
use lk_front::{Blank, Entry, Front, Head, Shelves};
use lk_val::NoMemory;
use std::alloc::Global;
use std::marker::Model;
use std::sync::{Arc, Wait};

/// The one who publishes. Contracts see the list of the shelf, and the value that is on offer. Letting go of it waits for the
/// readers, and from then on desks find nothing shown.
pub struct Publisher<T: Entry, J: Shelves, R: Wait + Drop>
where
    Stand<T, J>: Absorb<Stand<T, J>, State = u64>,
{
    writer: ShelfWriter<T, J>,
    head: Head<T, J>,
    front: Front<T, J>,
    offered: Option<Arc<T>>,
    rt: R,
}

impl<T: Entry, J: Shelves, R: Wait + Drop> Model for Publisher<T, J, R>
where
    Stand<T, J>: Absorb<Stand<T, J>, State = u64>,
{
    ghost use Rattle.std.specs.Prelude.{◌≡◌, ◌<◌, ◌≤◌, ◌^◌, List, [], length, drop, Option, IsSome};
    ghost use Rattle.std.specs.Option.{option_map};
    ghost use Rattle.std.specs.Arc.{arc_value};
    ghost use Rattle.left_right.specs.Sides.{view as seat_view};

    ghost Value = { List T × Option T };

    ghost view = { λ publisher. (publisher.front, option_map (λ value. arc_value value) publisher.offered) };

    ghost invariant = { λ publisher. (0 < length publisher.front) × (drop publisher.writer.behind publisher.writer.log.items ≡ []) × (length publisher.writer.desk.shown.value ≡ length publisher.front) × (length publisher.front ≤ seat_view publisher.writer.desk.place) × (IsSome publisher.offered → length publisher.front < 2 ^ 63) };
}

/// A shelf under a name, with its first value, and with places for so many desks and as many notes.
pub fn shelf<T: Entry, J: Shelves, R: Wait + Drop>(
    rt: R,
    alloc: Global,
    blank: Blank<T>,
    first: Arc<T>,
    desks: usize,
) -> Result<Publisher<T, J, R>, NoMemory>
    requires name { blank.seen.book ≡ J.book }
    requires begins { T.begins (arc_value first) }
    requires desks { (1 ≤ desks) × (desks ≤ 16) }
    ensures { IfOk result (λ publisher. publisher ≡ (arc_value first ∷ [], None)) }
{
    let (head, mut front) = blank.named::<J>();
    add(&rt, &head, &mut front, &*first);
    let value = Arc::try_clone(&first)?;
    let spare = Stand {
        value: Arc::try_clone(&first)?,
        front: front.again(),
    };
    let shown = Stand {
        value: first,
        front: front.again(),
    };
    let writer = Writer::new(alloc, shown, spare, 2 * desks + 1)?;
    // Shown once more, so that the log has room from here on, and the writer knows of the first value.
    let again = Stand {
        value,
        front: front.again(),
    };
    Ok(Publisher {
        writer: show(&rt, writer, again),
        head,
        front,
        offered: None,
        rt,
    })
}

impl<T: Entry, J: Shelves, R: Wait + Drop> Publisher<T, J, R> {
    /// How many values the list has.
    pub fn len(&self) -> u64
        ensures length { result ≡ length self.now.0 }
        ensures chain { IsChain T.begins T.follows self.now.0 }
    {
        self.front.len()
    }

    /// What a desk has seen begins the list, where it is no longer. A law: it computes nothing that is kept.
    pub fn compare(&self, desk: &Desk<T, J>)
        ensures { length desk.now.seen ≤ length self.now.0 → IsPrefix desk.now.seen self.now.0 }
    {
        desk.compare_front(&self.front);
    }

    /// A desk that has seen the whole list. Want of memory too where all places are taken.
    pub fn desk(&mut self) -> Result<Desk<T, J>, NoMemory>
        ensures desk { IfOk result (λ desk. (desk.seen ≡ self.old.0) × (desk.looks ≡ [])) }
        ensures same { self.new ≡ self.old }
    {
        let reader = new_reader(&mut self.writer)?;
        Ok(Desk::new(reader, self.front.again()))
    }

    /// Puts a value on offer, in place of one that was offered before. Nobody sees it until it is published. Want of memory where
    /// the list has 2^63 values.
    pub fn offer(&mut self, next: Arc<T>) -> Result<(), NoMemory>
        ensures ok { OnOk result (self.new ≡ (self.old.0, Some (arc_value next))) }
        ensures err { OnErr result (self.new ≡ self.old) }
    {
        if self.front.len() > i64::MAX as u64 {
            return Err(NoMemory);
        }
        self.offered = Some(next);
        Ok(())
    }

    /// Puts the offer at the end of the list, and shows it to readers. It waits for those that still read the copy that is not shown,
    /// and for a place for its note.
    pub fn publish<Q: Wait>(&mut self, rt: &Q) -> Note<T, J>
        requires { (x : T) × (self.old.1 ≡ Some x) × ((y : T) → EndsIn self.old.0 y → T.follows y x) }
        ensures list { IfSome self.old.1 (λ x. self.new ≡ (self.old.0 ++ x ∷ [], None)) }
        ensures note { result ≡ self.new.0 }
    {
        self.front.len();
        let Some(next) = self.offered.take() else {
            unreachable!()
        };
        add(rt, &self.head, &mut self.front, &*next);
        let stand = Stand {
            value: next,
            front: self.front.again(),
        };
        replace_with(
            &mut self.writer,
            stand,
            |writer: ShelfWriter<T, J>, stand: Stand<T, J>| -> (ShelfWriter<T, J>, ())
                requires none { drop writer.behind writer.log.items ≡ [] }
                requires longer { length writer.desk.shown.value ≤ length stand }
                ensures none { drop result.0.behind result.0.log.items ≡ [] }
                ensures shown { length result.0.desk.shown.value ≡ length stand }
                ensures known { view result.0.desk.place ≡ length stand }
            { (show(rt, writer, stand), ()) },
        );
        let reader = wait_for_reader(rt, &mut self.writer);
        Note::new(reader, self.front.again())
    }
}

impl<T: Entry, J: Shelves, R: Wait + Drop> Drop for Publisher<T, J, R> {
    fn drop(self) {
        let Self {
            writer,
            head: _head,
            front: _front,
            offered: _offered,
            rt,
        } = self;
        drop(writer.take(&rt));
    }
}
