use lk_io::{Failed, Sink, Source};
use lk_listen::{Door, TcpDoor};
use lk_val::Text;
use std::alloc::Global;
use std::io::{ErrorKind, Read, Write};
use std::net::{Shutdown, TcpListener, TcpStream};
use std::test::Fail;
use std::time::Duration;
use std::{io, thread};

// How often a client tries to connect, a millisecond apart.
const CONNECT_TRIES: usize = 10_000;

// Connects, as soon as somebody listens there.
fn connect(rt: &HostRuntime, address: &str) -> io::Result<TcpStream> {
    for _ in 0..CONNECT_TRIES {
        match TcpStream::connect(rt, address) {
            Err(error) if error.kind() == ErrorKind::ConnectionRefused => {
                thread::sleep(rt, Duration::from_millis(1));
            }
            answer => return answer,
        }
    }
    Err(io::Error::from(ErrorKind::ConnectionRefused))
}

// Sends `ping`, ends that, and reads what comes back to its end.
fn ask(rt: &HostRuntime, address: &str) -> io::Result<Vec<u8>> {
    let mut stream = connect(rt, address)?;
    stream.write_all(b"ping")?;
    stream.shutdown(Shutdown::Write)?;
    let mut answer = Vec::new(rt.alloc());
    stream.read_to_end(&mut answer)?;
    Ok(answer)
}

// Reads the door's next connection to its end, puts `pong` to it, and gives what was read.
fn answer<D: Door>(alloc: Global, door: &mut D) -> Result<Vec<u8>, Failed> {
    let mut read = Vec::new(alloc);
    let Some(mut link) = door.next()? else {
        return Ok(read);
    };
    let mut piece = [0; 3];
    for _ in 0..100 {
        let count = link.pull(&mut piece)?;
        if count == 0 {
            break;
        }
        read.extend_from_slice(&piece[..count]).or(Err(Failed))?;
    }
    link.put(b"pong")?;
    Ok(read)
}

// An address of this system at which nobody listens.
fn free_address(rt: &HostRuntime) -> Result<Text, Fail> {
    let listener = TcpListener::bind(rt, "127.0.0.1:0")?;
    let address = listener.local_addr()?;
    Ok(Text::from_string(format!(in rt.alloc(); "{address}")?))
}

fn door_at(rt: &HostRuntime, address: &str) -> Result<TcpDoor<HostRuntime>, Fail> {
    let address = Text::from_str(rt.alloc(), address).or(Err("memory"))?;
    Ok(TcpDoor::at(rt.clone()?, rt.alloc(), address))
}

#[test]
fn takes_one_connection_after_the_other(rt: HostRuntime) -> Result<(), Fail> {
    let address = free_address(&rt)?;
    let mut door = door_at(&rt, address.as_str())?;
    let alloc = rt.alloc();
    let rt = &rt;
    let address = address.as_str();
    let (served, asked) = thread::join(
        rt,
        move || (answer(alloc, &mut door), answer(alloc, &mut door)),
        move || (ask(rt, address), ask(rt, address)),
    );
    for read in [served.0?, served.1?] {
        assert_eq!(rt; read.as_slice(), b"ping".as_slice());
    }
    for reply in [asked.0?, asked.1?] {
        assert_eq!(rt; reply.as_slice(), b"pong".as_slice());
    }
    Ok(())
}

#[test]
fn an_address_that_cannot_be_bound_is_a_fault_of_each_call(rt: HostRuntime) -> Result<(), Fail> {
    let other = TcpListener::bind(&rt, "127.0.0.1:0")?;
    let other_address = other.local_addr()?;
    let taken = format!(in rt.alloc(); "{other_address}")?;
    for address in ["", "127.0.0.1", "127.0.0.1:http", taken.as_str()] {
        let mut door = door_at(&rt, address)?;
        for faults in 1..=2 {
            assert!(rt; matches!(door.next(), Err(Failed)), "at {address}");
            assert_eq!(rt; door.faults(), faults, "at {address}");
        }
    }
    Ok(())
}
