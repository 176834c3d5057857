//! The lines of a text on which a message is sent, and on which it arrives or is lost.
//!
//! Outputs don't number messages: of equal ones the first that was sent arrives first.

ghost use Rattle.std.specs.Prelude.{◌≡◌, ◌≤◌, ◌<◌, ◌+◌, ◌-◌, ◌^◌, IfSome, OnSome, drop, length, option_map, slice_get};
ghost use Rattle.rb_editor.specs.Messages.{NO_FLIGHTS, after_line, behind, ends, event_line, flights_after, has_event, is_message, lines_of_ended, lines_of_message, lines_of_sent, message_lines, message_of, sends};

use rb_script::Lines;

/// What a line says of a message.
#[derive(Clone, Copy, Debug, PartialEq, Eq)]
pub(crate) enum MessageEvent {
    /// It is sent.
    Sent,
    /// It arrives, or is lost.
    Ended,
}

/// How many equal messages some lines send, and how many of these arrive or are lost there.
#[derive(Clone, Copy, Debug, PartialEq, Eq)]
pub(crate) struct Flights {
    pub(crate) sent: usize,
    pub(crate) ended: usize,
}

/// The lines of a message, counted from 0.
#[derive(Clone, Copy, Debug, PartialEq, Eq)]
pub(crate) struct MessageLines {
    /// On which it is sent.
    pub(crate) sent: Option<usize>,
    /// On which it arrives or is lost.
    pub(crate) ended: Option<usize>,
}

// Gives what is after a word at the front of a line.
fn behind<'l>(word: &[u8], line: &'l [u8]) -> Option<&'l [u8]>
    ensures { option_map (λ rest. rest.now) result ≡ behind word.now line.now }
{
    line.strip_prefix(word)
}

// Gives the message that a line is about.
#[tactic(auto, unfolding(crate::specs::Messages::message_of))]
fn message_of(line: &[u8]) -> Option<&[u8]>
    ensures { option_map (λ m. m.now) result ≡ message_of line.now }
{
    if let Some(message) = behind(b"  send ", line) {
        return Some(message);
    }
    if let Some(message) = behind(b"deliver ", line) {
        return Some(message);
    }
    behind(b"drop ", line)
}

// Whether it is this message.
fn is_message(message: &[u8], other: Option<&[u8]>) -> bool
    ensures { result ≡ is_message message.now (option_map (λ m. m.now) other.entry) }
{
    match other {
        Some(other) => other == message,
        None => false,
    }
}

// Whether the message is sent on a line.
#[tactic(auto, unfolding(crate::specs::Messages::sends))]
fn sends(message: &[u8], line: &[u8]) -> bool
    ensures { result ≡ sends message.now line.now }
{
    is_message(message, behind(b"  send ", line))
}

// Whether the message arrives on a line, or is lost.
#[tactic(auto, unfolding(crate::specs::Messages::ends))]
fn ends(message: &[u8], line: &[u8]) -> bool
    ensures { result ≡ ends message.now line.now }
{
    is_message(message, behind(b"deliver ", line)) || is_message(message, behind(b"drop ", line))
}

// Whether a line says this of the message.
fn has_event(event: MessageEvent, message: &[u8], line: &[u8]) -> bool
    ensures { result ≡ has_event event message.now line.now }
{
    match event {
        MessageEvent::Sent => sends(message, line),
        MessageEvent::Ended => ends(message, line),
    }
}

// Counts after a line. A message that wasn't sent on a line above doesn't count.
fn after_line(message: &[u8], flights: Flights, line: &[u8]) -> Flights
    requires { (flights.sent < 2 ^ 64 - 1) × (flights.ended ≤ flights.sent) }
    ensures value { result ≡ after_line message.now flights line.now }
    ensures few { (result.sent ≤ flights.sent + 1) × (result.ended ≤ result.sent) }
{
    if sends(message, line) {
        Flights {
            sent: flights.sent + 1,
            ended: flights.ended,
        }
    } else if ends(message, line) && flights.ended < flights.sent {
        Flights {
            sent: flights.sent,
            ended: flights.ended + 1,
        }
    } else {
        flights
    }
}

// Counts the messages in flight after the first lines.
fn flights_after(message: &[u8], count: usize, lines: &Lines) -> Flights
    requires { count ≤ length lines.now }
    ensures value { result ≡ flights_after message.now NO_FLIGHTS count lines.now }
    ensures few { result.ended ≤ result.sent }
{
    let mut counted = Flights { sent: 0, ended: 0 };
    for i in 0..count {
        counted = after_line(message, counted, lines.line(i));
    }
    counted
}

// Finds the line with an event that `count` others with it are above, from a line on.
fn event_line(
    event: MessageEvent,
    message: &[u8],
    count: usize,
    from: usize,
    lines: &Lines,
) -> Option<usize>
    ensures value { result ≡ event_line event message.now count from (drop from lines.now) }
    ensures few { IfSome result (λ n. n < 2 ^ 64 - 1) }
{
    let mut left = count;
    for i in from..lines.len() {
        if has_event(event, message, lines.line(i)) {
            if left == 0 {
                return Some(i);
            }
            left -= 1;
        }
    }
    None
}

// Finds the lines of the message that is sent on a line, where these are in flight.
fn lines_of_sent(lines: &Lines, n: usize, message: &[u8], flights: Flights) -> MessageLines
    requires { n < 2 ^ 64 - 1 }
    ensures value { result ≡ lines_of_sent lines.now n message.now flights }
    ensures sent { IfSome result.sent (λ k. k < 2 ^ 64 - 1) }
    ensures ended { IfSome result.ended (λ k. k < 2 ^ 64 - 1) }
{
    let above = flights.sent.saturating_sub(flights.ended);
    MessageLines {
        sent: Some(n),
        ended: event_line(MessageEvent::Ended, message, above, n, lines),
    }
}

// Finds the lines of the message that arrives on a line, or is lost.
fn lines_of_ended(lines: &Lines, n: usize, message: &[u8], flights: Flights) -> MessageLines
    requires { n < 2 ^ 64 - 1 }
    ensures value { result ≡ lines_of_ended lines.now n message.now flights }
    ensures sent { IfSome result.sent (λ k. k < 2 ^ 64 - 1) }
    ensures ended { IfSome result.ended (λ k. k < 2 ^ 64 - 1) }
{
    let sent = if flights.ended < flights.sent {
        event_line(MessageEvent::Sent, message, flights.ended, 0, lines)
    } else {
        None
    };
    MessageLines {
        sent,
        ended: Some(n),
    }
}

// Finds the lines of the message that a line is about.
fn lines_of_message(lines: &Lines, n: usize, line: &[u8], message: &[u8]) -> MessageLines
    requires within { n ≤ length lines.now }
    requires few { n < 2 ^ 64 - 1 }
    ensures value { result ≡ lines_of_message lines.now n line.now message.now }
    ensures sent { IfSome result.sent (λ k. k < 2 ^ 64 - 1) }
    ensures ended { IfSome result.ended (λ k. k < 2 ^ 64 - 1) }
{
    let counted = flights_after(message, n, lines);
    if sends(message, line) {
        lines_of_sent(lines, n, message, counted)
    } else {
        lines_of_ended(lines, n, message, counted)
    }
}

// Gives a line, if there is one with this number.
fn line_at(lines: &Lines, n: usize) -> Option<&[u8]>
    ensures line { option_map (λ line. line.now) result ≡ slice_get lines.now n }
    ensures within { OnSome result ((n < length lines.now) × (n < 2 ^ 64 - 1)) }
{
    if n < lines.len() {
        Some(lines.line(n))
    } else {
        None
    }
}

/// Finds the lines of the message that a line is about; none if it is about none.
#[tactic(auto, unfolding(crate::specs::Messages::message_lines))]
pub(crate) fn message_lines(lines: &Lines, n: usize) -> MessageLines
    ensures value { result ≡ message_lines lines.now n }
    ensures sent { IfSome result.sent (λ k. k < 2 ^ 64 - 1) }
    ensures ended { IfSome result.ended (λ k. k < 2 ^ 64 - 1) }
{
    let nothing = MessageLines {
        sent: None,
        ended: None,
    };
    let Some(line) = line_at(lines, n) else {
        return nothing;
    };
    match message_of(line) {
        Some(message) => lines_of_message(lines, n, line, message),
        None => nothing,
    }
}
