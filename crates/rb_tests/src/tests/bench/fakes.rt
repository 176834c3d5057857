//! A reader and a writer that fail, a writer that takes no memory, and long texts.

ghost use Rattle.std.specs.Prelude.{◌≡◌, Some};

use rb_text::ReadSource;
use std::alloc::Global;
use std::io;
use std::io::{Error, ErrorKind, Read, Write};
use std::process::Abort;

/// 145 bytes: three edits that are refused, a report, and an edit with one line of five.
pub const REFUSED_EDITS: &[u8] = b"insert 99 3
log-level info
----
ok
insert 1 7
log-level info
----
ok

log-level info
----
ok
expect 1 2
a
----
report
replace 1 5
log-level info
";

/// Gives at most `most` bytes a call, and fails by an interruption at the call `fails_at`, which counts from 0.
#[derive(Drop)]
pub struct FailingReader<'a> {
    rest: &'a [u8],
    most: usize,
    pub calls: usize,
    fails_at: usize,
}

impl<'a> FailingReader<'a> {
    /// As a source.
    pub fn new(rest: &'a [u8], most: usize, fails_at: usize) -> ReadSource<FailingReader<'a>> {
        ReadSource(FailingReader {
            rest,
            most,
            calls: 0,
            fails_at,
        })
    }
}

impl Read for FailingReader<'_> {
    fn read(&mut self, buf: &mut [u8]) -> io::Result<usize> {
        let call = self.calls;
        self.calls = call.saturating_add(1);
        if call == self.fails_at {
            return Err(Error::from(ErrorKind::Interrupted));
        }
        let most = self.most.min(buf.len());
        self.rest.read(&mut buf[..most])
    }
}

/// Takes at most `most` bytes a call. At the call `fails_at`, which counts from 0, it fails by an interruption, or takes no byte.
#[derive(Drop)]
pub struct FailingWriter {
    pub taken: Vec<u8>,
    most: usize,
    calls: usize,
    fails_at: usize,
    takes_none: bool,
}

impl FailingWriter {
    pub fn new(alloc: Global, most: usize, fails_at: usize, takes_none: bool) -> FailingWriter {
        FailingWriter {
            taken: Vec::new(alloc),
            most,
            calls: 0,
            fails_at,
            takes_none,
        }
    }

    // Whether the next call fails, by which it is counted.
    fn is_failing(&mut self) -> bool
        ensures { self.new.taken.items ≡ self.old.taken.items }
    {
        let call = self.calls;
        self.calls = call.saturating_add(1);
        call == self.fails_at
    }
}

impl Write for FailingWriter {
    ghost contents = { λ w. Some w.taken.items };

    fn write(&mut self, buf: &[u8]) -> io::Result<usize> {
        if self.is_failing() {
            if self.takes_none {
                return Ok(0);
            }
            return Err(Error::from(ErrorKind::Interrupted));
        }
        let most = self.most.min(buf.len());
        self.taken.write(&buf[..most])
    }

    fn flush(&mut self) -> io::Result<()> {
        if self.is_failing() {
            return Err(Error::from(ErrorKind::Interrupted));
        }
        Ok(())
    }
}

const ROOM: usize = 1024;

/// Keeps the first bytes that it takes, in room of its own.
#[derive(Drop)]
pub struct Room {
    bytes: [u8; ROOM],
    len: usize,
}

impl Room {
    pub fn new() -> Room {
        Room {
            bytes: [0; ROOM],
            len: 0,
        }
    }

    pub fn taken(&self) -> &[u8] {
        &self.bytes[..self.len.min(ROOM)]
    }
}

impl Write for Room {
    fn write(&mut self, buf: &[u8]) -> io::Result<usize> {
        for byte in buf {
            if self.len < ROOM {
                self.bytes[self.len] = *byte;
                self.len += 1;
            }
        }
        Ok(buf.len())
    }

    fn flush(&mut self) -> io::Result<()> {
        Ok(())
    }
}

/// The text so many times.
pub fn repeated(rt: &impl Abort, alloc: Global, text: &[u8], times: usize) -> Vec<u8> {
    let mut bytes = Vec::new(alloc);
    for _ in 0..times {
        bytes.extend_from_slice(text).expect(rt, "memory");
    }
    bytes
}
