use lk_io::{Failed, MemLink, Source};
use lk_listen::{Door, MemDoor};
use lk_val::{Bytes, Items, NoMemory};
use std::alloc::Global;
use std::test::Fail;

// A connection that gives this byte.
fn link_of(alloc: Global, byte: u8) -> Result<MemLink, NoMemory> {
    let bytes = Bytes::from_slice(alloc, &[byte])?;
    MemLink::new(alloc, bytes, 0, Items::new(alloc), Items::new(alloc))
}

// The first byte of the door's next connection.
fn next_byte<D: Door>(door: &mut D) -> Result<Option<u8>, Failed> {
    let Some(mut link) = door.next()? else {
        return Ok(None);
    };
    let mut piece = [0];
    link.pull(&mut piece)?;
    Ok(Some(piece[0]))
}

#[test]
fn gives_its_connections_in_order_and_then_none(rt: HostRuntime) -> Result<(), Fail> {
    let mut links = Items::new(rt.alloc());
    for byte in [b'a', b'b'] {
        let link = link_of(rt.alloc(), byte).or(Err("memory"))?;
        links.push(link).or(Err("memory"))?;
    }
    let failing = Items::from_vec(vec![in rt.alloc(); 1, 4]?);
    let mut door = MemDoor::new(links, failing);
    let answers = [
        Ok(Some(b'a')),
        Err(Failed),
        Ok(Some(b'b')),
        Ok(None),
        Err(Failed),
        Ok(None),
    ];
    for answer in answers {
        assert_eq!(rt; next_byte(&mut door), answer);
    }
    assert_eq!(rt; door.faults(), 2);
    Ok(())
}

#[test]
fn a_broken_door_fails_at_every_call(rt: HostRuntime) {
    let mut door: MemDoor<MemLink> = MemDoor::broken(rt.alloc());
    for faults in 1..=3 {
        assert_eq!(rt; next_byte(&mut door), Err(Failed));
        assert_eq!(rt; door.faults(), faults);
    }
}
