//! The messages of a source.

ghost use Rattle.std.specs.Prelude.{Err, ◌≡◌, ◌≢◌, ◌<◌, ◌≤◌, ◌↔◌, ℕ, List, Option, IsTrue, false, IfOk, OnOk, length, drop, slice_range};
ghost use Rattle.std.specs.Io.KnownBytes.{Keeps};
ghost use Rattle.rb_text.specs.Asked.{Fails};
ghost use Rattle.rb_lsp.specs.Cancels.{CancelWaits};
ghost use Rattle.rb_lsp.specs.Reading.{GivesNext, body_of, end_of, left_of, waiting};
ghost use Rattle.rb_lsp.specs.declared.rpc.limits.TheConstants.{MAX_WAITING};

use crate::rpc::cancel::cancels;
use crate::rpc::fault::ServeFault;
use crate::rpc::head::{Framed, message_at};
use crate::rpc::limits::MAX_WAITING;
use rb_text::Source;
use std::alloc::{AllocError, Global};

// The most bytes that one call reads.
const CHUNK: usize = 16_384;

/// What was read from a source.
#[derive(Clone, Copy, Debug, PartialEq, Eq)]
pub enum NextMessage {
    /// A message, whose body the `MessageReader` holds.
    Message,
    /// The end, after the last message.
    End,
    /// The end, within a message.
    CutOff,
    /// Bytes that no message begins with.
    Bad,
}

/// Reads the messages of a source, one at a time.
#[derive(Drop)]
pub struct MessageReader {
    held: Vec<u8>,
    body: Vec<u8>,
    calls: u64,
    has_ended: bool,
}

impl MessageReader {
    /// Makes at most `calls` calls of the source; a further one counts as a failure.
    pub fn new(alloc: Global, calls: u64) -> MessageReader
        ensures { (known : Option (List ℕ)) → left_of result known ≡ known }
    {
        MessageReader {
            held: Vec::new(alloc),
            body: Vec::new(alloc),
            calls,
            has_ended: false,
        }
    }

    /// Reads to the end of the next message. Each call takes the same source.
    ///
    /// # Errors
    ///
    /// At the first error of the source, after the last call that may be made, and if memory is refused. Bytes may be lost then.
    pub fn next<S: Source>(&mut self, source: &mut S) -> Result<NextMessage, ServeFault>
        ensures given { IfOk result (λ next. GivesNext next (left_of self.old (S.left source.old)) (left_of self.new (S.left source.new)) (body_of self.new)) }
        // Over a source that never fails, reading fails only once all calls are made.
        ensures io { S.gives_all source.old → S.gives_all source.new × (result ≡ Err ServeFault.Io → self.new.calls ≡ 0) }
        // A failed call is reported as `Io`.
        ensures unfailed { result ≢ Err ServeFault.Io → Fails (S.asked source.old) (S.asked source.new) 0 }
    {
        'reading: loop {
            match message_at(self.held.as_slice()) {
                Framed::Message(start, end) => {
                    self.take(start, end)?;
                    return Ok(NextMessage::Message);
                }
                Framed::Bad => return Ok(NextMessage::Bad),
                Framed::Partial => {}
            }
            if self.has_ended {
                return Ok(self.end());
            }
            self.refill(source)?;
        }
    }

    /// The body that was read last.
    pub fn body(&self) -> &[u8]
        ensures { result.now ≡ body_of self.now }
    {
        self.body.as_slice()
    }

    /// Whether one of the next [`MAX_WAITING`] messages that were read cancels the request whose id has this text.
    ///
    /// # Errors
    ///
    /// If memory was refused.
    pub fn has_cancel(&self, alloc: Global, id: &[u8]) -> Result<bool, AllocError>
        ensures { IfOk result (λ is. IsTrue is ↔ CancelWaits id.now MAX_WAITING (waiting self.now)) }
    {
        let mut at = 0;
        for i in 0..MAX_WAITING {
            let left = &self.held[at..];
            match message_at(left) {
                Framed::Message(start, end) => {
                    let found = cancels(alloc, &left[start..end], id)?;
                    if found {
                        return Ok(true);
                    }
                    at += end;
                }
                Framed::Partial => return Ok(false),
                Framed::Bad => return Ok(false),
            }
        }
        Ok(false)
    }

    // Takes what is before `end` out of what is held; from `start` on it is the body.
    fn take(&mut self, start: usize, end: usize) -> Result<(), AllocError>
        requires ordered { start ≤ end }
        requires within { end ≤ length self.old.held.items }
        ensures body { OnOk result (self.new.body.items ≡ slice_range self.old.held.items start end) }
        ensures held { OnOk result (self.new.held.items ≡ drop end self.old.held.items) }
        ensures ended { self.new.has_ended ≡ self.old.has_ended }
        ensures calls { self.new.calls ≡ self.old.calls }
    {
        self.body.clear();
        self.body.extend_from_slice(&self.held[start..end])?;
        remove_front(&mut self.held, end);
        Ok(())
    }

    // What is returned at the end.
    fn end(&self) -> NextMessage
        ensures { result ≡ end_of self.now.held.items }
    {
        if self.held.is_empty() {
            NextMessage::End
        } else {
            NextMessage::CutOff
        }
    }

    // Makes one more call, if one is left.
    fn refill<S: Source>(&mut self, source: &mut S) -> Result<(), ServeFault>
        requires going { self.old.has_ended ≡ false }
        ensures counted { OnOk result (self.new.calls < self.old.calls) }
        ensures left { OnOk result (Keeps (left_of self.old (S.left source.old)) (left_of self.new (S.left source.new))) }
        ensures io { S.gives_all source.old → S.gives_all source.new × (result ≡ Err ServeFault.Io → self.new.calls ≡ 0) }
        // A failed call is reported as `Io`.
        ensures unfailed { result ≢ Err ServeFault.Io → Fails (S.asked source.old) (S.asked source.new) 0 }
    {
        if self.calls == 0 {
            return Err(ServeFault::Io);
        }
        self.calls -= 1;
        let mut chunk = [0u8; CHUNK];
        let n = source.get(chunk.as_mut_slice())?;
        self.held.extend_from_slice(&chunk[..n])?;
        self.has_ended = n == 0;
        Ok(())
    }
}

// Removes the first bytes.
fn remove_front(bytes: &mut Vec<u8>, n: usize)
    requires { n ≤ length bytes.old.items }
    ensures { bytes.new.items ≡ drop n bytes.old.items }
{
    let left = bytes.len() - n;
    bytes.as_mut_slice().copy_within(n.., 0);
    bytes.truncate(left);
}
