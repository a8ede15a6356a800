use pp_io::{Got, MemorySink, MemorySource, Sink, Source, StdSink, StdSource, Wrote, fails_next};
use std::io;
use std::test::Fail;

/// A reader of so many bytes, one a call, whose call with a given number fails.
#[derive(Drop)]
struct Reader {
    left: u64,
    calls: u64,
    fail: u64,
}

impl io::Read for Reader {
    fn read(&mut self, buf: &mut [u8]) -> io::Result<usize> {
        self.calls = self.calls.saturating_add(1);
        if self.calls == self.fail {
            return Err(io::Error::from(io::ErrorKind::TimedOut));
        }
        if self.left == 0 || buf.is_empty() {
            return Ok(0);
        }
        self.left -= 1;
        buf[0] = b'a';
        Ok(1)
    }
}

/// A writer that takes one byte a call. The call with one number fails, that with another takes nothing.
#[derive(Drop)]
struct Writer {
    calls: u64,
    fail: u64,
    stop: u64,
}

impl io::Write for Writer {
    fn write(&mut self, buf: &[u8]) -> io::Result<usize> {
        self.calls = self.calls.saturating_add(1);
        if self.calls == self.fail {
            return Err(io::Error::from(io::ErrorKind::TimedOut));
        }
        if self.calls == self.stop {
            return Ok(0);
        }
        Ok(buf.len().min(1))
    }

    fn flush(&mut self) -> io::Result<()> {
        Ok(())
    }
}

#[test]
fn streams_of_the_library(rt: HostRuntime) -> Result<(), Fail> {
    let mut buf = [0; 3];
    let mut source = StdSource::new(b"hello".as_slice());
    assert_eq!(rt; source.read(&mut buf), Got::Bytes(3));
    assert_eq!(rt; buf.as_slice(), b"hel".as_slice());
    assert_eq!(rt; source.read(&mut buf), Got::Bytes(2));
    assert_eq!(rt; source.read(&mut buf), Got::End);
    let mut sink = StdSink::new(Vec::new(rt.alloc()));
    assert_eq!(rt; sink.write(b"hello"), Wrote::Took(5));
    Ok(())
}

#[test]
fn each_read_of_the_library_fails(rt: HostRuntime) -> Result<(), Fail> {
    for (fail, wanted) in [
        (0, [Got::Bytes(1), Got::Bytes(1), Got::End, Got::End]),
        (1, [Got::Failed, Got::Bytes(1), Got::Bytes(1), Got::End]),
        (2, [Got::Bytes(1), Got::Failed, Got::Bytes(1), Got::End]),
        (3, [Got::Bytes(1), Got::Bytes(1), Got::Failed, Got::End]),
        (4, [Got::Bytes(1), Got::Bytes(1), Got::End, Got::Failed]),
    ] {
        let mut source = StdSource::new(Reader {
            left: 2,
            calls: 0,
            fail,
        });
        for got in wanted {
            let mut buf = [0; 3];
            assert_eq!(rt; source.read(&mut buf), got, "where {fail} fails");
        }
    }
    Ok(())
}

#[test]
fn each_write_of_the_library_fails(rt: HostRuntime) -> Result<(), Fail> {
    for (fail, stop, wanted) in [
        (0, 0, [Wrote::Took(1), Wrote::Took(1), Wrote::Took(1)]),
        (1, 0, [Wrote::Failed, Wrote::Took(1), Wrote::Took(1)]),
        (2, 0, [Wrote::Took(1), Wrote::Failed, Wrote::Took(1)]),
        (3, 1, [Wrote::Failed, Wrote::Took(1), Wrote::Failed]),
        (0, 2, [Wrote::Took(1), Wrote::Failed, Wrote::Took(1)]),
    ] {
        let mut sink = StdSink::new(Writer {
            calls: 0,
            fail,
            stop,
        });
        for wrote in wanted {
            assert_eq!(rt;
                sink.write(b"hello"),
                wrote,
                "where {fail} fails and {stop} stops"
            );
        }
    }
    Ok(())
}

#[test]
fn each_read_of_memory_fails(rt: HostRuntime) -> Result<(), Fail> {
    let alloc = rt.alloc();
    for (fail, wanted) in [
        (0, [Got::Bytes(2), Got::Bytes(2), Got::Bytes(1), Got::End]),
        (
            1,
            [Got::Failed, Got::Bytes(2), Got::Bytes(2), Got::Bytes(1)],
        ),
        (
            2,
            [Got::Bytes(2), Got::Failed, Got::Bytes(2), Got::Bytes(1)],
        ),
        (
            3,
            [Got::Bytes(2), Got::Bytes(2), Got::Failed, Got::Bytes(1)],
        ),
        (
            4,
            [Got::Bytes(2), Got::Bytes(2), Got::Bytes(1), Got::Failed],
        ),
    ] {
        let bytes = Vec::from_slice(alloc, b"hello")?;
        let mut source = MemorySource::new(bytes, 2, vec![in alloc; fail]?);
        for got in wanted {
            let mut buf = [0; 3];
            assert_eq!(rt; source.read(&mut buf), got, "where {fail} fails");
        }
    }
    Ok(())
}

#[test]
fn each_write_of_memory_fails(rt: HostRuntime) -> Result<(), Fail> {
    let alloc = rt.alloc();
    for (fail, wanted, held) in [
        (
            0,
            [Wrote::Took(2), Wrote::Took(2), Wrote::Took(2)],
            "hehehe",
        ),
        (1, [Wrote::Failed, Wrote::Took(2), Wrote::Took(2)], "hehe"),
        (2, [Wrote::Took(2), Wrote::Failed, Wrote::Took(2)], "hehe"),
        (3, [Wrote::Took(2), Wrote::Took(2), Wrote::Failed], "hehe"),
    ] {
        let mut sink = MemorySink::new(alloc, 2, vec![in alloc; fail]?);
        assert!(rt; sink.reserve(6) == Ok(()));
        for wrote in wanted {
            assert_eq!(rt; sink.write(b"hello"), wrote, "where {fail} fails");
        }
        assert_eq!(rt; sink.bytes(), held.as_bytes(), "where {fail} fails");
    }
    Ok(())
}

#[test]
fn no_room(rt: HostRuntime) -> Result<(), Fail> {
    let alloc = rt.alloc();
    let mut sink = MemorySink::new(alloc, 2, Vec::new(alloc));
    assert_eq!(rt; sink.write(b"hello"), Wrote::Failed);
    assert_eq!(rt; sink.bytes(), b"".as_slice());
    assert!(rt; sink.reserve(1) == Ok(()));
    assert_eq!(rt; sink.write(b"h"), Wrote::Took(1));
    assert_eq!(rt; sink.bytes(), b"h".as_slice());
    Ok(())
}

/// The call after the one with the last number of a u64 has no number.
#[test]
fn last_number(rt: HostRuntime) -> Result<(), Fail> {
    let mut calls = u64::MAX - 1;
    assert!(rt; fails_next(&mut calls, &[u64::MAX]));
    assert_eq!(rt; calls, u64::MAX);
    assert!(rt; !fails_next(&mut calls, &[0, 1, u64::MAX]));
    assert_eq!(rt; calls, u64::MAX);
    Ok(())
}
