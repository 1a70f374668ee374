use lk_io::{Failed, InSource, Link, MemLink, OutSink, Pair, Sink, Source};
use lk_val::{Bytes, Items};
use std::test::Fail;

// Puts back the next bytes, three at most.
fn echo<L: Link>(link: &mut L) -> Result<usize, Failed> {
    let mut piece = [0; 3];
    let count = link.pull(&mut piece)?;
    link.put(piece.get(..count).ok_or(Failed)?)?;
    Ok(count)
}

#[test]
fn counts_pulls_and_puts_apart(rt: HostRuntime) -> Result<(), Fail> {
    let bytes = Bytes::from_slice(rt.alloc(), b"model").or(Err("memory"))?;
    let pulls = Items::from_vec(vec![in rt.alloc(); 1]?);
    let puts = Items::from_vec(vec![in rt.alloc(); 0]?);
    let mut link = MemLink::new(rt.alloc(), bytes, 9, pulls, puts).or(Err("memory"))?;
    assert_eq!(rt; echo(&mut link), Err(Failed));
    assert_eq!(rt; (link.read_faults(), link.write_faults()), (0, 1));
    assert_eq!(rt; echo(&mut link), Err(Failed));
    assert_eq!(rt; (link.read_faults(), link.write_faults()), (1, 1));
    assert_eq!(rt; echo(&mut link), Ok(2));
    assert_eq!(rt; link.held(), b"el".as_slice());
    Ok(())
}

#[test]
fn joins_a_source_and_a_sink(rt: HostRuntime) -> Result<(), Fail> {
    let out = OutSink::new(Vec::new(rt.alloc()));
    let mut link = Pair::new(InSource::new(b"model".as_slice()), out);
    for count in [3, 2, 0] {
        assert_eq!(rt; echo(&mut link), Ok(count));
    }
    let (source, out) = link.into_parts();
    assert_eq!(rt; source.faults(), 0);
    assert_eq!(rt; out.into_writer().as_slice(), b"model".as_slice());
    Ok(())
}

#[test]
fn takes_the_input_and_the_output_of_the_system(rt: HostRuntime) {
    let mut link = Pair::new(
        InSource::new(rt.reader()),
        OutSink::new(std::io::writer(&rt)),
    );
    assert_eq!(rt; link.put(b""), Ok(()));
}
