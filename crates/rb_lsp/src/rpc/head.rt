//! The message at the front of bytes.

ghost use Rattle.std.specs.Prelude.{◌≡◌, ◌≤◌, length, map, All};
ghost use Rattle.std.specs.Str.{str_eq_ignore_ascii_case};
ghost use Rattle.httparse.specs.Spans.{IsHeaderWithin, header_bytes};
ghost use Rattle.rb_lsp.specs.Messages.{Finds, told_length, is_length_name};
ghost use Rattle.rb_lsp.specs.Heads.{IsHead};

use crate::rpc::limits::{MAX_BODY, MAX_FIELDS, MAX_HEAD};
use httparse::Status;
use httparse::spans::{EMPTY_HEADER_SPAN, HeaderSpan, parse_headers};
use rb_text::number_of;

/// What the front of bytes is.
#[derive(Clone, Copy, Debug, PartialEq, Eq)]
pub enum Framed {
    /// A message, with the offsets at which its body begins and ends.
    Message(usize, usize),
    /// Not a message yet. Further bytes may complete one.
    Partial,
    /// Not a message, whatever follows.
    Bad,
}

/// Looks for a message at the front of the bytes.
pub fn message_at(bytes: &[u8]) -> Framed
    ensures { Finds bytes.now result }
{
    let mut fields = [EMPTY_HEADER_SPAN; MAX_FIELDS];
    match parse_headers(bytes, fields.as_mut_slice()) {
        Ok(Status::Complete((start, count))) => {
            body_at(bytes, start, told_length(bytes, &fields[..count]))
        }
        Ok(Status::Partial) => {
            if bytes.len() < MAX_HEAD {
                Framed::Partial
            } else {
                Framed::Bad
            }
        }
        Err(_) => Framed::Bad,
    }
}

// Whether the name is that of the field with the length.
fn is_length_name(name: &[u8]) -> bool
    ensures { result ≡ is_length_name name.now }
{
    name.eq_ignore_ascii_case(b"content-length")
}

// The length that the fields give.
fn told_length(bytes: &[u8], fields: &[HeaderSpan]) -> Option<u64>
    requires { All (IsHeaderWithin (length bytes.now)) fields.now }
    ensures { result ≡ told_length (map (header_bytes bytes.now) fields.now) }
{
    for field in fields {
        if is_length_name(field.name.of(bytes)) {
            return number_of(field.value.of(bytes));
        }
    }
    None
}

// The body after a header that ends there.
fn body_at(bytes: &[u8], start: usize, told: Option<u64>) -> Framed
    requires { IsHead bytes.now start told }
    ensures { Finds bytes.now result }
{
    let Some(len) = told else {
        return Framed::Bad;
    };
    if start > MAX_HEAD || len > MAX_BODY as u64 {
        return Framed::Bad;
    }
    let len = len as usize;
    if bytes.len() - start < len {
        return Framed::Partial;
    }
    Framed::Message(start, start + len)
}
