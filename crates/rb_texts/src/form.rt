//! What is shown of an event: lines, rows and pictures are made of this form.

ghost use Rattle.std.specs.Prelude.{◌≡◌, map};
ghost use Rattle.rb_texts.specs.EventForms.{none, one, two, plain_piece, plain_pieces, plain_form, told, trouble, warned, hidden, is_hidden};

use rb_tracker::Config;
use rb_vocab::Level;

/// Words, and the value after them.
#[derive(Clone, Copy)]
pub enum EventPiece<'a> {
    /// No value.
    Words(&'a [u8]),
    Number(&'a [u8], u64),
    /// A term and an index.
    Place(&'a [u8], u64, u64),
    /// Two indexes, from one to the other.
    Range(&'a [u8], u64, u64),
    /// The name of something.
    Name(&'a [u8], &'a [u8]),
    /// Whether a vote is granted.
    Answer(&'a [u8], bool),
    Config(&'a [u8], &'a Config),
}

/// Up to four pieces; the others are blank.
#[derive(Clone, Copy)]
pub struct EventPieces<'a> {
    list: [EventPiece<'a>; 4],
}

const BLANK: EventPiece<'static> = EventPiece::Words(b"");

impl<'a> EventPieces<'a> {
    /// The pieces, in order.
    pub fn as_slice(&self) -> &[EventPiece<'a>]
        ensures { map plain_piece result.now ≡ plain_pieces self.now }
    {
        self.list.as_slice()
    }

    pub(crate) fn none() -> EventPieces<'a>
        ensures { plain_pieces result ≡ none }
    {
        EventPieces {
            list: [BLANK, BLANK, BLANK, BLANK],
        }
    }

    pub(crate) fn one(piece: EventPiece<'a>) -> EventPieces<'a>
        ensures { plain_pieces result ≡ one (plain_piece piece.entry) }
    {
        EventPieces {
            list: [piece, BLANK, BLANK, BLANK],
        }
    }

    pub(crate) fn two(first: EventPiece<'a>, second: EventPiece<'a>) -> EventPieces<'a>
        ensures { plain_pieces result ≡ two (plain_piece first.entry) (plain_piece second.entry) }
    {
        EventPieces {
            list: [first, second, BLANK, BLANK],
        }
    }

    pub(crate) fn four(list: [EventPiece<'a>; 4]) -> EventPieces<'a>
        ensures { plain_pieces result ≡ map plain_piece list.entry }
    {
        EventPieces { list }
    }
}

/// What of an event has a line and a row of its own.
#[derive(Clone, Copy, PartialEq, Eq, Debug)]
pub enum EventShown {
    /// Nothing: an answer or a reason shows it.
    Nothing,
    /// A row shows its node alone.
    Node,
    /// A row shows its node and its values.
    Values,
}

/// The mark of an event in a picture.
#[derive(Clone, Copy, PartialEq, Eq, Debug)]
pub enum EventMark {
    Quiet,
    Trouble,
    /// A node becomes leader.
    Leads,
    /// A node takes another role.
    Role,
    /// A node switches to another configuration.
    Config,
    /// A leadership transfer begins.
    Change,
    /// A node restores a snapshot.
    Snapshot,
    /// A node restarts.
    Restart,
}

/// Everything that is shown of an event.
#[derive(Clone, Copy)]
pub struct EventForm<'a> {
    pub level: Level,
    pub shown: EventShown,
    /// The name of its row.
    pub name: &'a [u8],
    /// What happened, after the node.
    pub pieces: EventPieces<'a>,
    pub mark: EventMark,
    /// Its words in a picture.
    pub few: EventPieces<'a>,
}

impl<'a> EventForm<'a> {
    /// Whether it has neither a line nor a row.
    pub fn is_hidden(&self) -> bool
        ensures { result ≡ is_hidden self.now.shown }
    {
        match self.shown {
            EventShown::Nothing => true,
            EventShown::Node | EventShown::Values => false,
        }
    }

    /// One with a line, a row and a mark.
    pub(crate) fn told(
        level: Level,
        name: &'a [u8],
        pieces: EventPieces<'a>,
        mark: EventMark,
        few: EventPieces<'a>,
    ) -> EventForm<'a>
        ensures { plain_form result ≡ told level name.now (plain_pieces pieces.entry) mark (plain_pieces few.entry) }
    {
        EventForm {
            level,
            shown: EventShown::Values,
            name,
            pieces,
            mark,
            few,
        }
    }

    /// One that reports trouble, which a picture shows in the same words.
    pub(crate) fn trouble(level: Level, name: &'a [u8], pieces: EventPieces<'a>) -> EventForm<'a>
        ensures { plain_form result ≡ trouble level name.now (plain_pieces pieces.entry) }
    {
        EventForm::told(level, name, pieces, EventMark::Trouble, pieces)
    }

    /// A warning without a value.
    pub(crate) fn warned(name: &'a [u8], text: &'a [u8]) -> EventForm<'a>
        ensures { plain_form result ≡ warned name.now text.now }
    {
        EventForm::trouble(Level::Warn, name, EventPieces::one(EventPiece::Words(text)))
    }

    /// One without a line and a row.
    pub(crate) fn hidden(pieces: EventPieces<'a>) -> EventForm<'a>
        ensures { plain_form result ≡ hidden (plain_pieces pieces.entry) }
    {
        EventForm {
            level: Level::Debug,
            shown: EventShown::Nothing,
            name: b"",
            pieces,
            mark: EventMark::Quiet,
            few: EventPieces::none(),
        }
    }
}
