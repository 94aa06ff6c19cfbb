use crate::*;
use std::io;
use std::io::{Read, Write};
use std::test::Fail;

// What a source gives in pieces of four bytes, until it tells its end.
fn all_of<S: Source>(rt: &HostRuntime, source: &mut S) -> Result<Vec<u8>, Fail> {
    let mut all = Vec::new(rt.alloc());
    for _ in 0..100 {
        let mut piece = [0u8; 4];
        match source.read(&mut piece) {
            Ok(0) => return Ok(all),
            Ok(count) if count <= 4 => all.extend_from_slice(&piece[..count])?,
            Ok(_) => return Err(Fail::from("a count above the piece's length")),
            Err(SourceFailed) => all.push(b'!')?,
        }
    }
    Ok(all)
}

#[test]
fn a_source_in_memory_gives_pieces_of_the_sizes(rt: HostRuntime) -> Result<(), Fail> {
    let table: [(&[usize], &[u64], &[u8], u128, u128); 5] = [
        (&[], &[], b"abcdefghi", 4, 9),
        (&[1], &[], b"abcdefghi", 10, 9),
        (&[0, 3], &[], b"abcdefghi", 5, 9),
        (&[2, 9], &[1, 3], b"ab!cdef!ghi", 6, 9),
        (&[100], &[0], b"!abcdefghi", 5, 9),
    ];
    for (sizes, failing, want, reads, given) in table {
        let bytes = b"abcdefghi".to_vec(rt.alloc())?;
        let mut source = VecSource::new(
            bytes,
            sizes.to_vec(rt.alloc())?,
            failing.to_vec(rt.alloc())?,
        );
        let got = all_of(&rt, &mut source)?;
        assert_eq!(rt; got.as_slice(), want, "sizes {sizes:?}");
        assert_eq!(rt; source.read_count(), reads, "sizes {sizes:?}");
        assert_eq!(rt; source.given_count(), given, "sizes {sizes:?}");
    }
    Ok(())
}

#[test]
fn a_sink_in_memory_takes_pieces_of_the_sizes(rt: HostRuntime) -> Result<(), Fail> {
    let table: [(&[usize], &[u64], bool, &[u8]); 5] = [
        (&[], &[], true, b"abcdefghi"),
        (&[1], &[], true, b"abcdefghi"),
        (&[5], &[1], false, b"abcde"),
        (&[2, 0, 3], &[3], false, b"abcdef"),
        (&[], &[0], false, b""),
    ];
    for (sizes, failing, whole, want) in table {
        let mut sink = VecSink::new(
            rt.alloc(),
            sizes.to_vec(rt.alloc())?,
            failing.to_vec(rt.alloc())?,
        );
        assert_eq!(rt;
            write_all(&mut sink, b"abcdefghi").is_ok(),
            whole,
            "sizes {sizes:?}"
        );
        assert_eq!(rt; sink.written(), want, "sizes {sizes:?}");
        assert_eq!(rt; sink.refused(), 0);
    }
    let mut sink = VecSink::with_room(
        rt.alloc(),
        3,
        Vec::new(rt.alloc()),
        [1].to_vec(rt.alloc())?,
    )?;
    assert!(rt; write_all(&mut sink, b"abc").is_ok());
    assert!(rt; sink.flush().is_err(), "call 1 fails");
    assert!(rt; sink.flush().is_ok());
    assert_eq!(rt;
        sink.counts(),
        SinkCounts {
            faults: 1,
            flushes: 1
        }
    );
    assert_eq!(rt; sink.written(), b"abc".as_slice());
    Ok(())
}

/// A device that takes nothing.
#[derive(Drop)]
struct Full;

impl Write for Full {
    fn write(&mut self, _bytes: &[u8]) -> io::Result<usize> {
        Ok(0)
    }

    fn flush(&mut self) -> io::Result<()> {
        Ok(())
    }
}

/// A device that takes all and hands nothing on.
#[derive(Drop)]
struct Stuck;

impl Write for Stuck {
    fn write(&mut self, bytes: &[u8]) -> io::Result<usize> {
        Ok(bytes.len())
    }

    fn flush(&mut self) -> io::Result<()> {
        Err(io::Error::from(io::ErrorKind::Other))
    }
}

/// A device that cannot be read.
#[derive(Drop)]
struct Broken;

impl Read for Broken {
    fn read(&mut self, _bytes: &mut [u8]) -> io::Result<usize> {
        Err(io::Error::from(io::ErrorKind::Other))
    }
}

#[test]
fn a_reader_is_a_source(rt: HostRuntime) -> Result<(), Fail> {
    let mut source = ReadSource::new(b"abcdefghi".as_slice());
    assert_eq!(rt;
        all_of(&rt, &mut source)?.as_slice(),
        b"abcdefghi".as_slice()
    );
    let mut broken = ReadSource::new(Broken);
    assert!(rt; broken.read(&mut [0u8; 4]).is_err());
    Ok(())
}

#[test]
fn a_writer_is_a_sink(rt: HostRuntime) -> Result<(), Fail> {
    let mut sink = WriteSink::new(Vec::new(rt.alloc()));
    assert!(rt; write_all(&mut sink, b"abcdefghi").is_ok());
    assert!(rt; sink.flush().is_ok());
    let mut full = WriteSink::new(Full);
    assert!(rt; full.write(b"").is_ok());
    assert!(rt;
        full.write(b"a").is_err(),
        "a device that takes nothing has failed"
    );
    let mut stuck = WriteSink::new(Stuck);
    assert!(rt; write_all(&mut stuck, b"a").is_ok());
    assert!(rt; stuck.flush().is_err());
    Ok(())
}
