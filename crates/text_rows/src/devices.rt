//! Sources and sinks: that they move bytes, when they fail, and which errors of the system are no
//! fault.

ghost use Rattle.std.specs.Prelude.{◌≤◌, IfOk};

use cs_outside::{Sink, Source, StdSink, read_some, write_all, write_some};
use memory_outside::{MemSink, MemSource};
use std::alloc::Global;
use std::io;
use std::io::{ErrorKind, Read, Write};
use std::process::Abort;

/// The second call alone, as one that fails.
fn second<R: AllocGlobal + Abort>(rt: &R) -> Vec<u64> {
    vec![in rt.alloc(); 2].expect(rt, "room")
}

/// Expects that the source gives these bytes next.
fn expect_read(rt: &impl Abort, source: &mut MemSource, bytes: &[u8]) {
    let mut buf = [0; 3];
    let count = source.read(&mut buf).expect(rt, "bytes");
    assert!(rt; &buf[..count] == bytes);
}

/// Expects that the source fails.
fn expect_read_fault(rt: &impl Abort, source: &mut MemSource) {
    assert!(rt; source.read(&mut [0; 3]).is_err());
}

#[test]
fn source_fails_where_it_is_told(rt: HostRuntime) {
    let bytes = b"abcde".to_vec(rt.alloc()).expect(&rt, "room");
    let mut source = MemSource::of(bytes, 2, second(&rt));
    expect_read(&rt, &mut source, b"ab");
    expect_read_fault(&rt, &mut source);
    expect_read(&rt, &mut source, b"cd");
    expect_read(&rt, &mut source, b"e");
    expect_read(&rt, &mut source, b"");
    assert!(rt; source.calls() == 5);
}

/// Expects that the piece is written as a whole or not, and that the sink then has these bytes.
fn expect_write(rt: &impl Abort, sink: &mut MemSink, piece: &[u8], is_written: bool, bytes: &[u8]) {
    let is_whole = write_all(sink, piece).is_ok();
    assert!(rt; is_whole == is_written && sink.bytes() == bytes);
}

#[test]
fn sink_fails_where_it_is_told(rt: HostRuntime) {
    let mut sink = MemSink::of(rt.alloc(), 5, 2, second(&rt)).expect(&rt, "room");
    expect_write(&rt, &mut sink, b"ab", true, b"ab");
    expect_write(&rt, &mut sink, b"cd", false, b"ab");
    expect_write(&rt, &mut sink, b"cde", true, b"abcde");
    expect_write(&rt, &mut sink, b"f", false, b"abcde");
    expect_write(&rt, &mut sink, b"", true, b"abcde");
    assert!(rt; sink.calls() == 5);
}

/// A device that moves a byte at a time, up to its room, and is interrupted before each.
#[derive(Drop)]
struct Halting {
    moved: Vec<u8>,
    room: usize,
    is_interrupted: bool,
}

impl Halting {
    fn with_room(alloc: Global, room: usize) -> Halting {
        Halting {
            moved: Vec::new(alloc),
            room,
            is_interrupted: false,
        }
    }

    fn step(&mut self, byte: u8) -> io::Result<usize>
        ensures { IfOk result (λ n. n ≤ 1) }
    {
        self.is_interrupted = !self.is_interrupted;
        if self.is_interrupted {
            return Err(ErrorKind::Interrupted.into());
        }
        if self.moved.len() >= self.room {
            return Ok(0);
        }
        self.moved.push(byte)?;
        Ok(1)
    }
}

impl Write for Halting {
    fn write(&mut self, buf: &[u8]) -> io::Result<usize> {
        match buf {
            [] => Ok(0),
            [first, ..] => self.step(*first),
        }
    }

    fn flush(&mut self) -> io::Result<()> {
        Ok(())
    }
}

impl Read for Halting {
    fn read(&mut self, buf: &mut [u8]) -> io::Result<usize> {
        if buf.is_empty() {
            return Ok(0);
        }
        buf[0] = b'x';
        self.step(b'x')
    }
}

#[test]
fn interrupted_write_is_made_again(rt: HostRuntime) {
    let mut device = Halting::with_room(rt.alloc(), 2);
    let are_written = [
        write_some(&mut device, b"ab").is_ok(),
        write_some(&mut device, b"b").is_ok(),
        write_some(&mut device, b"c").is_ok(),
    ];
    assert!(rt; are_written == [true, true, false] && device.moved.as_slice() == b"ab".as_slice());
}

#[test]
fn interrupted_read_is_made_again(rt: HostRuntime) {
    let mut device = Halting::with_room(rt.alloc(), 1);
    let mut buf = [0; 2];
    for wanted in [1, 0] {
        assert!(rt; matches!(read_some(&mut device, &mut buf), Ok(count) if count == wanted));
    }
}

#[test]
fn standard_output_answers(rt: HostRuntime) {
    let mut sink = StdSink::over(rt.stdout());
    assert!(rt; write_all(&mut sink, b"a line\n").is_ok() && sink.flush().is_ok());
}
