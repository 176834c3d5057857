//! The streams of a report.
//!
//! Code over a report is proved of this trait alone: where it's known what a stream holds, it's known what the report writes.

ghost use Rattle.std.specs.Prelude.{◌≡◌, [], IfErr, IsOk};
ghost use Rattle.std.specs.Io.Buffered.{writer_buffer};
ghost use Rattle.std.specs.Io.KnownBytes.{Keeps};
ghost use Rattle.std.specs.IoError.{error_kind};
ghost use Rattle.rb_script.specs.Writes.{Writes};
ghost use Rattle.rb_check.specs.declared.visible.Showing.{Showing};

use crate::visible::{Showing, VisibleSink};
use rb_script::{Sink, Through, WriteFault};
use std::alloc::Global;
use std::io;
use std::io::{BufWriter, ErrorKind, Write};

/// A stream of a report.
pub(crate) trait ReportSink: Sink + Drop {
    // how bytes go out
    ghost shown_as: { Self → Showing };

    // nothing that was written is kept back
    ghost is_flushed: { Self → Type 0 };

    /// From here on bytes go out so.
    fn show_as(&mut self, showing: Showing)
        ensures shown { shown_as self.new ≡ showing }
        ensures held { Keeps (Self.held self.old) (Self.held self.new) }
        ensures all { Self.takes_all self.old → Self.takes_all self.new };

    /// Writes bytes that act in a terminal.
    fn put_acting(&mut self, bytes: &[u8]) -> Result<(), WriteFault>
        ensures wrote { Writes result (Self.held self.old) (Self.held self.new) bytes.now }
        ensures all { Self.takes_all self.old → IsOk result × Self.takes_all self.new };

    /// Hands on what was written.
    fn flush(&mut self) -> io::Result<()>
        ensures held { Keeps (Self.held self.old) (Self.held self.new) }
        ensures flushed { IsOk result → is_flushed self.new }
        ensures all { Self.takes_all self.old → IsOk result × Self.takes_all self.new };
}

impl<W: Write + Drop> ReportSink for VisibleSink<Through<BufWriter<W>>> {
    ghost shown_as = { λ stream. stream.showing };

    ghost is_flushed = { λ stream. writer_buffer stream.sink.0 ≡ [] };

    fn show_as(&mut self, showing: Showing) {
        self.showing = showing;
    }

    fn put_acting(&mut self, bytes: &[u8]) -> Result<(), WriteFault> {
        self.sink.put(bytes)
    }

    fn flush(&mut self) -> io::Result<()> {
        self.sink.0.flush()
    }
}

/// A stream of a report over a writer.
pub(crate) fn stream_over<W: Write + Drop>(
    alloc: Global,
    writer: W,
) -> io::Result<VisibleSink<Through<BufWriter<W>>>>
    ensures { IfErr result (λ error. error_kind error ≡ ErrorKind.OutOfMemory) }
{
    Ok(VisibleSink {
        sink: Through(BufWriter::new(alloc, writer)?),
        showing: Showing::AsIs,
    })
}
