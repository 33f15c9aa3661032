//! Output that is put.

use ng_outside::{HostSink, MemSink, Sink, SinkError, SureSink};
use std::fmt::Display;
use std::io;
use std::test::Fail;

#[test]
fn into_a_sink_that_takes_all(rt: HostRuntime) -> Result<(), Fail> {
    let mut sink = SureSink::new(rt.alloc());
    assert_eq!(rt; sink.put(b"hello"), Ok(5));
    assert_eq!(rt; sink.bytes(), b"hello".as_slice());
    Ok(())
}

#[test]
fn into_a_sink_that_becomes_full(rt: HostRuntime) -> Result<(), Fail> {
    let alloc = rt.alloc();
    let mut sink = MemSink::new(alloc, 3, Vec::new(alloc))?;
    assert_eq!(rt; sink.put(b"hello"), Ok(3));
    assert_eq!(rt; sink.put(b"!"), Err(SinkError::Failed));
    Ok(())
}

// A standard output whose writes take at most so many bytes, or fail.
#[derive(Drop)]
struct Terminal(Option<usize>);

impl Print for Terminal {
    fn print<D: Display + Drop>(&self, _value: D) -> io::Result<()> {
        Ok(())
    }

    fn println<D: Display + Drop>(&self, _value: D) -> io::Result<()> {
        Ok(())
    }

    fn write_all(&self, _bytes: &[u8]) -> io::Result<()> {
        Ok(())
    }

    fn write_some(&self, bytes: &[u8]) -> io::Result<usize> {
        match self.0 {
            Some(most) => Ok(most.min(bytes.len())),
            None => Err(io::Error::from(io::ErrorKind::BrokenPipe)),
        }
    }
}

#[test]
fn into_a_terminal(rt: HostRuntime) {
    for (most, want) in [
        (Some(9), Ok(5)),
        (Some(2), Ok(2)),
        (Some(0), Err(SinkError::Failed)),
        (None, Err(SinkError::Failed)),
    ] {
        let terminal = Terminal(most);
        assert_eq!(rt; HostSink::new(&terminal).put(b"hello"), want);
    }
    assert_eq!(rt; HostSink::new(&rt).put(b"hello"), Ok(5));
}
