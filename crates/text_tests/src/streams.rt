//! What no clause says of streams: that calls succeed where memory is there, and what those of std do.
use hp_io::{
    Failed, MemSink, MemSource, ReadStop, Sink, Source, StdSink, StdSource, Taken, next_byte,
    read_limited, write_whole,
};
use std::io;
use std::io::{ErrorKind, Read};
use std::test::Fail;

#[test]
fn memory_gives_and_takes_in_order(rt: HostRuntime) -> Result<(), Fail> {
    let alloc = rt.alloc();
    let bytes = Vec::from_slice(alloc, b"hello")?;
    let mut source = MemSource::new(bytes, vec![in alloc; 2]?);
    let mut into = [0u8; 3];
    assert_eq!(rt; source.read(&mut into), Ok(3));
    assert_eq!(rt; into, *b"hel");
    assert_eq!(rt; source.read(&mut into), Err(Failed));
    assert_eq!(rt; next_byte(&mut source), Ok(Some(b'l')));
    assert_eq!(rt; source.read(&mut into), Ok(1));
    assert_eq!(rt; next_byte(&mut source), Ok(None));

    let mut sink = MemSink::new(vec![in alloc; 0; 5]?, vec![in alloc; 2]?);
    assert_eq!(rt; sink.write(b"abc"), Ok(3));
    assert_eq!(rt; sink.write(b"d"), Err(Failed));
    assert_eq!(rt; write_whole(&mut sink, b"def"), Err(Failed));
    assert_eq!(rt; write_whole(&mut sink, b""), Ok(()));
    assert_eq!(rt; sink.written(), b"abcde".as_slice());
    Ok(())
}

// A reader of which each read fails.
#[derive(Drop)]
struct Broken;

impl Read for Broken {
    fn read(&mut self, _into: &mut [u8]) -> io::Result<usize> {
        Err(io::Error::from(ErrorKind::BrokenPipe))
    }
}

#[test]
fn std_streams_fail_as_they_do(rt: HostRuntime) -> Result<(), Fail> {
    let mut source = StdSource::new(b"ab".as_slice().chain(Broken));
    let mut into = [0u8; 4];
    assert_eq!(rt; source.read(&mut into), Ok(2));
    assert_eq!(rt; into, *b"ab\0\0");
    assert_eq!(rt; source.read(&mut into), Err(Failed));

    // A slice that is full takes nothing, and gives no error.
    let mut room = [0u8; 3];
    let mut sink = StdSink::new(room.as_mut_slice());
    assert_eq!(rt; write_whole(&mut sink, b"xy"), Ok(()));
    assert_eq!(rt; write_whole(&mut sink, b"zz"), Err(Failed));
    drop(sink);
    assert_eq!(rt; room, *b"xyz");
    Ok(())
}

#[test]
fn a_limit_is_reached_or_passed(rt: HostRuntime) -> Result<(), Fail> {
    let alloc = rt.alloc();
    // How many bytes there are, the limit, which read fails, and how many bytes are taken.
    let rows = [
        (0, 0, 0, Ok(Some(0))),
        (1, 0, 0, Ok(None)),
        (20_000, 20_000, 0, Ok(Some(20_000))),
        (20_000, 19_999, 0, Ok(None)),
        (20_000, u64::MAX, 0, Ok(Some(20_000))),
        (20_000, 20_000, 2, Err(ReadStop::Failed)),
    ];
    for (count, limit, fails, want) in rows {
        let bytes = vec![in alloc; b'x'; count]?;
        let mut source = MemSource::new(bytes, vec![in alloc; fails]?);
        let got = match read_limited(alloc, &mut source, limit) {
            Ok(Taken::Whole(bytes)) => Ok(Some(bytes.into_vec().len())),
            Ok(Taken::TooLong) => Ok(None),
            Err(stop) => Err(stop),
        };
        assert_eq!(rt; got, want, "{count} bytes, limit {limit}");
    }
    Ok(())
}
