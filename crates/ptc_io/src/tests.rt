use super::*;
use std::io::{Error, ErrorKind, Read, Result as IoResult, Write};
use std::test::Fail;

#[test]
fn memory_source_fails_in_the_middle(rt: HostRuntime) -> Result<(), Fail> {
    let bytes = b"abcdef".to_vec(rt.alloc())?;
    let mut source = MemorySource::new(bytes, vec![in rt.alloc(); 2]?);
    let mut piece = [0u8; 4];
    assert_eq!(rt; source.read(&mut piece), Ok(4));
    assert_eq!(rt; piece.as_slice(), b"abcd".as_slice());
    assert_eq!(rt; source.read(&mut piece), Err(Failed));
    assert_eq!(rt; source.read(&mut piece), Ok(2));
    assert_eq!(rt; piece.as_slice(), b"efcd".as_slice());
    assert_eq!(rt; source.read(&mut piece), Ok(0));
    Ok(())
}

#[test]
fn memory_sink_fails_at_the_second_call(rt: HostRuntime) -> Result<(), Fail> {
    let mut sink = MemorySink::new(rt.alloc(), 10, vec![in rt.alloc(); 2]?);
    assert_eq!(rt;
        write_all(&mut sink, b"a text of more than ten"),
        Err(Failed)
    );
    assert_eq!(rt; sink.bytes(), b"a text of ".as_slice());
    write_all(&mut sink, b"a third")?;
    assert_eq!(rt; sink.bytes(), b"a text of a third".as_slice());
    Ok(())
}

#[test]
fn writes_byte_by_byte(rt: HostRuntime) -> Result<(), Fail> {
    let mut sink = MemorySink::new(rt.alloc(), 1, Vec::new(rt.alloc()));
    write_all(&mut sink, b"")?;
    write_all(&mut sink, b"abc")?;
    assert_eq!(rt; sink.bytes(), b"abc".as_slice());
    write_all(&mut PlainSink::new(), b"abc")?;
    Ok(())
}

#[test]
fn reads_to_the_limit_and_one_past_it(rt: HostRuntime) -> Result<(), Fail> {
    for (limit, size) in [(0, 1), (4, 5), (5, 5), (6, 5)] {
        let mut source = PlainSource::new(b"abcde".to_vec(rt.alloc())?);
        let bytes = read_to_limit(rt.alloc(), &mut source, limit)?;
        assert_eq!(rt; bytes.as_slice().len(), size, "at {limit}");
    }
    Ok(())
}

#[test]
fn read_to_limit_meets_a_fault(rt: HostRuntime) -> Result<(), Fail> {
    let bytes = b"abcde".to_vec(rt.alloc())?;
    let mut source = MemorySource::new(bytes, vec![in rt.alloc(); 2]?);
    let outcome = read_to_limit(rt.alloc(), &mut source, 9);
    assert!(rt; matches!(outcome, Err(ReadFault::Failed)));
    Ok(())
}

// Interrupts the first call, and then has one byte, and then an error.
struct Uneven {
    calls: u8,
}

impl Uneven {
    fn count(&mut self) -> IoResult<usize> {
        self.calls = self.calls.saturating_add(1);
        match self.calls {
            1 => Err(Error::from(ErrorKind::Interrupted)),
            2 => Ok(1),
            3 => Ok(0),
            _ => Err(Error::from(ErrorKind::BrokenPipe)),
        }
    }
}

impl Drop for Uneven {
    fn drop(self) {
        let Uneven { calls: _ } = self;
    }
}

impl Read for Uneven {
    fn read(&mut self, buf: &mut [u8]) -> IoResult<usize> {
        Ok(self.count()?.min(buf.len()))
    }
}

impl Write for Uneven {
    fn write(&mut self, buf: &[u8]) -> IoResult<usize> {
        Ok(self.count()?.min(buf.len()))
    }

    fn flush(&mut self) -> IoResult<()> {
        Ok(())
    }
}

#[test]
fn std_errors_are_faults(rt: HostRuntime) -> Result<(), Fail> {
    let mut source = StdSource::new(Uneven { calls: 0 });
    let mut piece = [0u8; 4];
    assert_eq!(rt; source.read(&mut piece), Ok(1));
    assert_eq!(rt; source.read(&mut piece), Ok(0));
    assert_eq!(rt; source.read(&mut piece), Err(Failed));

    let mut sink = StdSink::new(Uneven { calls: 0 });
    assert_eq!(rt; sink.write(b"ab"), Ok(1));
    assert_eq!(rt; sink.write(b"ab"), Err(Failed));
    assert_eq!(rt; sink.write(b"ab"), Err(Failed));
    Ok(())
}

#[test]
fn std_bytes_go_through(rt: HostRuntime) -> Result<(), Fail> {
    let mut source = StdSource::new(b"abc".as_slice());
    let bytes = read_to_limit(rt.alloc(), &mut source, 9)?;
    assert_eq!(rt; bytes.as_slice(), b"abc".as_slice());
    let mut held = Vec::<u8>::new(rt.alloc());
    write_all(&mut StdSink::new(&mut held), &bytes)?;
    assert_eq!(rt; held.as_slice(), b"abc".as_slice());
    Ok(())
}

#[test]
fn std_streams_serve(rt: HostRuntime) {
    let _source = StdSource::new(rt.reader());
    let mut sink = StdSink::new(rt.stdout());
    assert_eq!(rt; sink.write(b""), Ok(0));
}
