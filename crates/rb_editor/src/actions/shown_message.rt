//! Messages of diagnostics as they are shown: nothing of a script acts in them.
//!
//! A script may have any bytes. If a control character, a mark that turns the direction of text, or a character that isn't seen is in a message, all of
//! it but printable ASCII and ends of lines is shown by numbers, as `\x1b`.

ghost use Rattle.std.specs.Prelude.{◌≡◌, ◌==◌, if◌then◌else◌, IfOk};
ghost use Rattle.std.specs.List.{list_any};
ghost use Rattle.rb_report.specs.Names.{is_printable};
ghost use Rattle.rb_editor.specs.ShownMessages.{acts, acts_alone, message_byte, shown_message};

use rb_report::check::{by_number, has_acting_char};
use rb_script::{Sink, Through, WriteFault};
use rb_text::{Escape, put_escaped};
use std::alloc::{AllocError, Global};

// How the bytes of a message are written in which something acts.
struct InMessage;

impl Escape for InMessage {
    ghost text = { λ _ b. message_byte b };

    fn put<S: Sink>(&self, sink: &mut S, b: u8) -> Result<(), WriteFault> {
        sink.put(byte_text(b, &[b], &by_number(b)))
    }
}

// The byte itself, or its number if it is neither printable nor an end of a line.
fn byte_text<'a>(b: u8, itself: &'a [u8], number: &'a [u8]) -> &'a [u8]
    ensures { result.now ≡ (if b == 10 then itself.now else (if is_printable b then itself.now else number.now)) }
{
    if b == b'\n' || (b' ' <= b && b <= b'~' && b != b'\\') {
        itself
    } else {
        number
    }
}

// Whether the byte is a control character but an end of a line.
fn acts_alone(b: u8) -> bool
    ensures { result ≡ acts_alone b }
{
    (b < b' ' || b == 127) && b != b'\n'
}

fn has_control(message: &[u8]) -> bool
    ensures { result ≡ list_any acts_alone message.now }
{
    message.iter().any(|b| acts_alone(*b))
}

// Whether something acts in a message.
fn acts(message: &[u8]) -> bool
    ensures { result ≡ acts message.now }
{
    has_control(message) || has_acting_char(message)
}

/// Copies a message as it is shown.
///
/// # Errors
///
/// If memory was refused.
#[tactic(auto, unfolding(crate::specs::ShownMessages::shown_message))]
pub(crate) fn shown_message(alloc: Global, message: &[u8]) -> Result<Vec<u8>, AllocError>
    ensures { IfOk result (λ shown. shown.items ≡ shown_message message.now) }
{
    if !acts(message) {
        return Vec::from_slice(alloc, message);
    }
    let mut sink = Through(Vec::new(alloc));
    match put_escaped(&mut sink, &InMessage, message) {
        Ok(()) => Ok(sink.0),
        Err(_) => Err(AllocError),
    }
}
