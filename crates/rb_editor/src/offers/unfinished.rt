//! What is being written at the end of a head: its name, an argument, or a value of an option.

ghost use Rattle.std.specs.Prelude.{◌≡◌};
ghost use Rattle.rb_script.specs.declared.limits.TheConstants.{MAX_ARGUMENTS};
ghost use Rattle.rb_script.specs.Directive.{begins, is_gap};
ghost use Rattle.rb_script.specs.Heads.{begins_space};
ghost use Rattle.rb_editor.specs.Unfinished.{argument_at, closed, in_arguments, is_listed, last_piece, list_value, name_of, nothing, reach_of, rest_or, value_at, wanted_of};

use rb_script::{ByteClass, MAX_ARGUMENTS, is_space};
use std::marker::Model;

/// What is being written.
#[derive(Clone, Copy)]
pub(crate) enum UnfinishedKind {
    /// The name of a directive.
    Name,
    /// An argument of a directive.
    Argument,
    /// A value of an option.
    Value,
    /// Nothing that is known.
    Nothing,
}

/// The unfinished word at the end of a head.
#[derive(Drop)]
pub(crate) struct UnfinishedWord<'a> {
    /// What it is.
    pub(crate) kind: UnfinishedKind,
    /// The key of the option, if it is a value.
    pub(crate) key: &'a [u8],
    /// What there is of it.
    pub(crate) prefix: &'a [u8],
    /// If it is a value in parentheses, all that is written between them.
    pub(crate) listed: &'a [u8],
}

impl<'a> Model for UnfinishedWord<'a> {
    ghost use Rattle.rb_editor.specs.Unfinished.{PlainWanted};

    ghost Value = { PlainWanted };

    ghost view = { λ w. record { kind = w.kind; key = w.key.now; prefix = w.prefix.now; listed = w.listed.now } };
}

// The end of a head that can't be continued.
fn nothing<'a>() -> UnfinishedWord<'a>
    ensures { result ≡ nothing }
{
    UnfinishedWord {
        kind: UnfinishedKind::Nothing,
        key: b"",
        prefix: b"",
        listed: b"",
    }
}

/// Whether the bytes begin with this one.
pub(crate) fn begins(b: u8, bytes: &[u8]) -> bool
    ensures { result ≡ begins b bytes.now }
{
    match bytes {
        [first, ..] => *first == b,
        [] => false,
    }
}

/// Whether the bytes begin with a blank.
pub(crate) fn begins_space(bytes: &[u8]) -> bool
    ensures { result ≡ begins_space bytes.now }
{
    match bytes {
        [first, ..] => is_space(*first),
        [] => false,
    }
}

// Whether the byte parts two values in parentheses.
fn is_gap(b: u8) -> bool
    ensures { result ≡ is_gap b }
{
    is_space(b) || b == b','
}

/// Gives the bytes after the last blank or comma.
pub(crate) fn last_piece(bytes: &[u8]) -> &[u8]
    ensures { result.now ≡ last_piece bytes.now }
{
    let mut piece = bytes;
    for (i, b) in bytes.iter().enumerate() {
        if is_gap(*b) {
            piece = &bytes[i + 1..];
        }
    }
    piece
}

/// Whether one of these values is the word. The last isn't finished.
pub(crate) fn is_listed(word: &[u8], bytes: &[u8]) -> bool
    ensures { result ≡ is_listed word.now bytes.now }
{
    let mut from = 0;
    for (i, b) in bytes.iter().enumerate() {
        if is_gap(*b) {
            if &bytes[from..i] == word {
                return true;
            }
            from = i + 1;
        }
    }
    false
}

// Gives what is left after an argument, or the argument if nothing is left.
fn rest_or<'a>(wanted: UnfinishedWord<'a>, rest: &'a [u8]) -> Result<&'a [u8], UnfinishedWord<'a>>
    ensures { reach_of result ≡ rest_or wanted.entry rest.now }
{
    if rest.is_empty() {
        Err(wanted)
    } else {
        Ok(rest)
    }
}

// Cuts the closing parenthesis off.
fn closed(rest: &[u8]) -> &[u8]
    ensures { result.now ≡ closed rest.now }
{
    if begins(b')', rest) { &rest[1..] } else { rest }
}

// Reads values up to the closing parenthesis.
fn list_value<'a>(key: &'a [u8], bytes: &'a [u8]) -> Result<&'a [u8], UnfinishedWord<'a>>
    ensures { reach_of result ≡ list_value key.now bytes.now }
{
    let rest = ByteClass::Inside.after(bytes);
    if rest.is_empty() {
        return Err(UnfinishedWord {
            kind: UnfinishedKind::Value,
            key,
            prefix: last_piece(bytes),
            listed: bytes,
        });
    }
    Ok(closed(rest))
}

// Reads the value after the `=` of an option.
fn value_at<'a>(key: &'a [u8], bytes: &'a [u8]) -> Result<&'a [u8], UnfinishedWord<'a>>
    ensures { reach_of result ≡ value_at key.now bytes.now }
{
    if begins(b'(', bytes) {
        return list_value(key, &bytes[1..]);
    }
    let wanted = UnfinishedWord {
        kind: UnfinishedKind::Value,
        key,
        prefix: bytes,
        listed: b"",
    };
    rest_or(wanted, ByteClass::Value.after(bytes))
}

/// Reads the argument at the front: what is left after it, or the word if the head ends in it.
#[tactic(auto, unfolding(crate::specs::Unfinished::argument_at))]
pub(crate) fn argument_at(bytes: &[u8]) -> Result<&[u8], UnfinishedWord<'_>>
    ensures { reach_of result ≡ argument_at bytes.now }
{
    let rest = ByteClass::Word.after(bytes);
    if begins(b'=', rest) {
        return value_at(ByteClass::Word.front(bytes), &rest[1..]);
    }
    let wanted = UnfinishedWord {
        kind: UnfinishedKind::Argument,
        key: b"",
        prefix: bytes,
        listed: b"",
    };
    rest_or(wanted, rest)
}

// Finds what the arguments after a name end in.
fn in_arguments(bytes: &[u8]) -> UnfinishedWord<'_>
    ensures { result ≡ in_arguments MAX_ARGUMENTS bytes.now }
{
    let mut left = bytes;
    for _ in 0..MAX_ARGUMENTS {
        if !begins_space(left) {
            return nothing();
        }
        match argument_at(ByteClass::Space.after(left)) {
            Ok(rest) => left = rest,
            Err(wanted) => return wanted,
        }
    }
    nothing()
}

/// Gives the name of an unfinished head, as far as it is written.
pub(crate) fn name_of(head: &[u8]) -> &[u8]
    ensures { result.now ≡ name_of head.now }
{
    ByteClass::Word.front(ByteClass::Space.after(head))
}

/// Finds what an unfinished head ends in.
pub(crate) fn wanted_of(head: &[u8]) -> UnfinishedWord<'_>
    ensures { result ≡ wanted_of head.now }
{
    let name = ByteClass::Space.after(head);
    let rest = ByteClass::Word.after(name);
    if rest.is_empty() {
        return UnfinishedWord {
            kind: UnfinishedKind::Name,
            key: b"",
            prefix: name,
            listed: b"",
        };
    }
    in_arguments(rest)
}
