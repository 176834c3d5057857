//! A server over a source and a sink.

ghost use Rattle.std.specs.Prelude.{◌≡◌, ◌≢◌, Err, None, Some, IfOk, OnErr, OnOk};
ghost use Rattle.std.specs.Io.KnownBytes.{Appends};
ghost use Rattle.serde_json.specs.View.{view};
ghost use Rattle.rb_script.specs.Writes.{AppendsFront};
ghost use Rattle.rb_text.specs.Asked.{Fails};
ghost use Rattle.rb_lsp.specs.Reading.{calls_of, left_of, waiting};
ghost use Rattle.rb_lsp.specs.Said.{said};
ghost use Rattle.rb_lsp.specs.Talk.{goes};
ghost use Rattle.rb_lsp.specs.Serves.{BreaksOff, Responds, Served, StartsAnswer, StartsTelling, Tells, TurnBreaks, TurnsOut, turned_of};

use crate::rpc::{MAX_CALLS, MessageReader, NextMessage, ReadError, ServeFault, read};
use crate::server::phase::ExitStatus;
use crate::server::server::{Server, hear, refused};
use crate::server::service::Service;
use rb_script::Sink;
use rb_text::Source;
use serde_json::Value;
use std::alloc::Global;

/// Serves an editor until the end of the conversation. Each message is answered in one write before the next is read.
///
/// # Errors
///
/// `Io` at the first error of the source or the sink, an interrupted call too, and after [`MAX_CALLS`] calls of the source; `OutOfMemory` if memory
/// was refused for anything but the work on a text.
pub fn serve<V: Service, S: Source, W: Sink>(
    alloc: Global,
    service: &mut V,
    source: &mut S,
    sink: &mut W,
) -> Result<ExitStatus, ServeFault>
    // The output is the conversation over the bytes of the input, and the status is that of its end.
    ensures ok { IfOk result (λ status. Served V.meaning (S.left source.old) status (W.held sink.old) (W.held sink.new)) }
    // If a call fails, a beginning of it was written.
    ensures failed { OnErr result (BreaksOff V.meaning (S.left source.old) (W.held sink.old) (W.held sink.new)) }
    // A failed call of the source is reported as `Io`.
    ensures unfailed { result ≢ Err ServeFault.Io → Fails (S.asked source.old) (S.asked source.new) 0 }
{
    let mut reader = MessageReader::new(alloc, MAX_CALLS);
    let mut server = Server::new(alloc);
    for _ in 0..MAX_CALLS {
        match turn(alloc, service, &mut server, &mut reader, source, sink) {
            Ok(None) => {}
            Ok(Some(status)) => return Ok(status),
            Err(fault) => return Err(fault),
        }
    }
    Err(ServeFault::Io)
}

// Reads a message and answers it.
fn turn<V: Service, S: Source, W: Sink>(
    alloc: Global,
    service: &mut V,
    server: &mut Server<V::Kept>,
    reader: &mut MessageReader,
    source: &mut S,
    sink: &mut W,
) -> Result<Option<ExitStatus>, ServeFault>
    // One message is taken off the bytes that are left. Of those after it the reader has read some, which say whether it is cancelled; they stay.
    ensures ok { IfOk result (λ over. TurnsOut V.meaning server.old (turned_of over server.new) (waiting reader.new) (left_of reader.old (S.left source.old)) (left_of reader.new (S.left source.new)) (W.held sink.old) (W.held sink.new)) }
    ensures failed { OnErr result (TurnBreaks V.meaning server.old (left_of reader.old (S.left source.old)) (W.held sink.old) (W.held sink.new)) }
    // Without a failed call the conversation breaks off only once all calls are made.
    ensures io { S.gives_all source.old → W.takes_all sink.old → S.gives_all source.new × W.takes_all sink.new × (result ≡ Err ServeFault.Io → calls_of reader.new ≡ 0) }
    // A failed call of the source is reported as `Io`.
    ensures unfailed { result ≢ Err ServeFault.Io → Fails (S.asked source.old) (S.asked source.new) 0 }
{
    match reader.next(source)? {
        NextMessage::Message => respond(alloc, service, server, reader, reader.body(), sink),
        NextMessage::End => Ok(Some(ExitStatus::Closed)),
        NextMessage::CutOff => Ok(Some(ExitStatus::CutOff)),
        NextMessage::Bad => Ok(Some(ExitStatus::NoMessage)),
    }
}

// Answers a body that the reader gave.
fn respond<V: Service, W: Sink>(
    alloc: Global,
    service: &mut V,
    server: &mut Server<V::Kept>,
    reader: &MessageReader,
    body: &[u8],
    sink: &mut W,
) -> Result<Option<ExitStatus>, ServeFault>
    ensures ok { IfOk result (λ over. Responds V.meaning server.old body.now (waiting reader.now) (turned_of over server.new) (W.held sink.old) (W.held sink.new)) }
    ensures failed { OnErr result (StartsAnswer V.meaning server.old body.now (waiting reader.now) (W.held sink.old) (W.held sink.new)) }
    ensures io { W.takes_all sink.old → (result ≢ Err ServeFault.Io) × W.takes_all sink.new }
{
    match read(alloc, body) {
        Ok(message) => respond_to(alloc, service, server, reader, &message, sink),
        Err(ReadError::NotJson) => refuse::<V, W>(alloc, server, reader, sink),
        Err(ReadError::OutOfMemory) => Err(ServeFault::OutOfMemory),
    }
}

// Answers a message.
fn respond_to<V: Service, W: Sink>(
    alloc: Global,
    service: &mut V,
    server: &mut Server<V::Kept>,
    reader: &MessageReader,
    message: &Value,
    sink: &mut W,
) -> Result<Option<ExitStatus>, ServeFault>
    ensures turned { IfOk result (λ over. turned_of over server.new ≡ goes server.old (Some (said (view message.now)))) }
    ensures tells { OnOk result (Tells V.meaning server.old (Some (said (view message.now))) (waiting reader.now) (waiting reader.now) (W.held sink.old) (W.held sink.new)) }
    ensures failed { OnErr result (StartsTelling V.meaning server.old (Some (said (view message.now))) (waiting reader.now) (W.held sink.old) (W.held sink.new)) }
    ensures io { W.takes_all sink.old → (result ≢ Err ServeFault.Io) × W.takes_all sink.new }
{
    let heard = hear(alloc, service, server, reader, message)?;
    sink.put(heard.out.as_slice())?;
    Ok(heard.over)
}

// Answers a body that isn't JSON.
fn refuse<V: Service, W: Sink>(
    alloc: Global,
    server: &mut Server<V::Kept>,
    reader: &MessageReader,
    sink: &mut W,
) -> Result<Option<ExitStatus>, ServeFault>
    ensures turned { IfOk result (λ over. turned_of over server.new ≡ goes server.old None) }
    ensures tells { OnOk result (Tells V.meaning server.old None (waiting reader.now) (waiting reader.now) (W.held sink.old) (W.held sink.new)) }
    ensures failed { OnErr result (StartsTelling V.meaning server.old None (waiting reader.now) (W.held sink.old) (W.held sink.new)) }
    ensures io { W.takes_all sink.old → (result ≢ Err ServeFault.Io) × W.takes_all sink.new }
{
    let out = refused(alloc)?;
    sink.put(out.as_slice())?;
    Ok(None)
}
