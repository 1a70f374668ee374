// Numbers on a shelf.

ghost use Rattle.std.specs.Prelude.{◌≡◌, ◌≤◌, IfOk};
ghost use Rattle.shelf_tests.specs.Numbers.{CountsItself};

use lk_front::{Blank, Entry, Shelves};
use lk_shelf::{Desk, Note, Publisher, shelf};
use lk_val::NoMemory;
use std::alloc::Global;
use std::sync::{Arc, Wait};

/// A number, behind which stands the same one or the next.
#[derive(Drop)]
pub struct Counted {
    pub number: u64,
}

impl Entry for Counted {
    ghost use Rattle.std.specs.Prelude.{◌≡◌, ◌+◌, ◌⊎◌};

    ghost begins = { λ first. first.number ≡ 0 };

    ghost follows = { λ before after. (after.number ≡ before.number) ⊎ (after.number ≡ before.number + 1) };
}

/// A shelf that shows 0.
pub fn open<J: Shelves, R: Wait>(
    rt: &R,
    alloc: Global,
    blank: Blank<Counted>,
    desks: usize,
) -> Result<Publisher<Counted, J, &R>, NoMemory>
    requires name { blank.seen.book ≡ J.book }
    requires desks { (1 ≤ desks) × (desks ≤ 16) }
    ensures { IfOk result (λ publisher. CountsItself publisher.0) }
{
    let first = Arc::new(alloc, Counted { number: 0 })?;
    shelf(rt, alloc, blank, first, desks)
}

/// Publishes how many numbers there are.
pub fn publish_next<J: Shelves, R: Wait>(
    rt: &R,
    alloc: Global,
    publisher: &mut Publisher<Counted, J, &R>,
) -> Result<Note<Counted, J>, NoMemory>
    requires { CountsItself publisher.old.0 }
    ensures { IfOk result (λ note. CountsItself publisher.new.0) }
{
    let number = publisher.len();
    publisher.offer(Arc::new(alloc, Counted { number })?)?;
    Ok(publisher.publish(rt))
}

/// Publishes the number that is shown once more.
pub fn publish_again<J: Shelves, R: Wait>(
    rt: &R,
    alloc: Global,
    publisher: &mut Publisher<Counted, J, &R>,
) -> Result<Note<Counted, J>, NoMemory>
    requires { CountsItself publisher.old.0 }
{
    let number = publisher.len().saturating_sub(1);
    publisher.offer(Arc::new(alloc, Counted { number })?)?;
    Ok(publisher.publish(rt))
}

/// The number that a desk is shown.
pub fn shown<J: Shelves>(desk: &mut Desk<Counted, J>) -> Option<u64> {
    match desk.current() {
        Ok(value) => Some(value.number),
        Err(_) => None,
    }
}
