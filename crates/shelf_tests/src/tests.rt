ghost use Rattle.std.specs.Prelude.{◌≡◌};
ghost use Rattle.shelf_tests.specs.Numbers.{CountsItself};

use crate::numbers::{Counted, open, publish_again, publish_next, shown};
use lk_front::{Blank, Shelves};
use lk_shelf::{Desk, Publisher};
use std::alloc::Global;
use std::marker::Brand;
use std::process::Abort;
use std::sync::Wait;
use std::test::Fail;

#[test]
fn publishes_go_through_while_notes_are_dropped(rt: HostRuntime) -> Result<(), Fail> {
    drop_notes::<Brand, _>(&rt, rt.alloc(), Blank::new())
}

fn drop_notes<J: Shelves, R: Wait + Abort>(
    rt: &R,
    alloc: Global,
    blank: Blank<Counted>,
) -> Result<(), Fail>
    requires { blank.seen.book ≡ J.book }
{
    let mut publisher = open::<J, R>(rt, alloc, blank, 1).or(Err("memory"))?;
    let mut desk = publisher.desk().or(Err("memory"))?;
    drop_forty(rt, alloc, &mut publisher)?;
    assert_eq!(rt; publisher.len(), 41);
    assert_eq!(rt; desk.len(), 1);
    assert_eq!(rt; shown(&mut desk), Some(40));
    assert_eq!(rt; desk.len(), 41);
    Ok(())
}

fn drop_forty<J: Shelves, R: Wait>(
    rt: &R,
    alloc: Global,
    publisher: &mut Publisher<Counted, J, &R>,
) -> Result<(), Fail>
    requires { CountsItself publisher.old.0 }
{
    for _ in 0..40 {
        drop(publish_next(rt, alloc, publisher).or(Err("memory"))?);
    }
    Ok(())
}

#[test]
fn publishes_go_through_while_desks_learn_notes(rt: HostRuntime) -> Result<(), Fail> {
    learn_notes::<Brand, _>(&rt, rt.alloc(), Blank::new())
}

fn learn_notes<J: Shelves, R: Wait + Abort>(
    rt: &R,
    alloc: Global,
    blank: Blank<Counted>,
) -> Result<(), Fail>
    requires { blank.seen.book ≡ J.book }
{
    let mut publisher = open::<J, R>(rt, alloc, blank, 2).or(Err("memory"))?;
    let mut first = publisher.desk().or(Err("memory"))?;
    let mut second = publisher.desk().or(Err("memory"))?;
    learn_forty(rt, alloc, &mut publisher, &mut first, &mut second)?;
    assert_eq!(rt; first.len(), 40);
    assert_eq!(rt; second.len(), 41);
    assert_eq!(rt; shown(&mut first), Some(40));
    assert_eq!(rt; first.len(), 41);
    Ok(())
}

fn learn_forty<J: Shelves, R: Wait>(
    rt: &R,
    alloc: Global,
    publisher: &mut Publisher<Counted, J, &R>,
    first: &mut Desk<Counted, J>,
    second: &mut Desk<Counted, J>,
) -> Result<(), Fail>
    requires { CountsItself publisher.old.0 }
{
    for _ in 0..20 {
        first.learn(publish_next(rt, alloc, publisher).or(Err("memory"))?);
        second.learn(publish_next(rt, alloc, publisher).or(Err("memory"))?);
    }
    Ok(())
}

#[test]
fn what_was_learnt_is_seen_at_once_and_no_older_note_takes_it_back(
    rt: HostRuntime,
) -> Result<(), Fail> {
    learn_late::<Brand, _>(&rt, rt.alloc(), Blank::new())
}

fn learn_late<J: Shelves, R: Wait + Abort>(
    rt: &R,
    alloc: Global,
    blank: Blank<Counted>,
) -> Result<(), Fail>
    requires { blank.seen.book ≡ J.book }
{
    let mut publisher = open::<J, R>(rt, alloc, blank, 1).or(Err("memory"))?;
    let mut desk = publisher.desk().or(Err("memory"))?;
    assert_eq!(rt; shown(&mut desk), Some(0));
    look_on(rt, alloc, &mut publisher, &mut desk)
}

fn look_on<J: Shelves, R: Wait + Abort>(
    rt: &R,
    alloc: Global,
    publisher: &mut Publisher<Counted, J, &R>,
    desk: &mut Desk<Counted, J>,
) -> Result<(), Fail>
    requires { CountsItself publisher.old.0 }
{
    let old = publish_next(rt, alloc, publisher).or(Err("memory"))?;
    assert_eq!(rt; desk.len(), 1);
    desk.learn(publish_next(rt, alloc, publisher).or(Err("memory"))?);
    assert_eq!(rt; desk.len(), 3);
    desk.learn(old);
    assert_eq!(rt; desk.len(), 3);
    assert_eq!(rt; shown(desk), Some(2));
    drop(publish_again(rt, alloc, publisher).or(Err("memory"))?);
    assert_eq!(rt; shown(desk), Some(2));
    assert_eq!(rt; desk.len(), 4);
    Ok(())
}

#[test]
fn nothing_is_shown_once_the_publisher_is_gone(rt: HostRuntime) -> Result<(), Fail> {
    outlive_the_publisher::<Brand, _>(&rt, rt.alloc(), Blank::new())
}

fn outlive_the_publisher<J: Shelves, R: Wait + Abort>(
    rt: &R,
    alloc: Global,
    blank: Blank<Counted>,
) -> Result<(), Fail>
    requires { blank.seen.book ≡ J.book }
{
    let mut publisher = open::<J, R>(rt, alloc, blank, 1).or(Err("memory"))?;
    let mut desk = publisher.desk().or(Err("memory"))?;
    assert_eq!(rt; shown(&mut desk), Some(0));
    drop(publisher);
    assert_eq!(rt; shown(&mut desk), None);
    assert_eq!(rt; shown(&mut desk), None);
    assert_eq!(rt; desk.len(), 1);
    Ok(())
}
