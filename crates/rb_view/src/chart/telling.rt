//! The description of a picture for readers who can't see: the notes of the script, its directives, and a sentence for each item.

use crate::chart::chart::Chart;
use rb_text::{Piece, add_pieces};
use std::alloc::AllocError;

/// The ending of a message.
#[derive(Clone, Copy)]
pub(crate) enum Ending {
    /// It is in flight.
    Waiting,
    Delivered,
    Dropped,
    /// It didn't fit.
    GivenUp,
}

impl Ending {
    /// The words for the message.
    fn words(self) -> &'static [u8] {
        match self {
            Ending::Waiting => b" is on its way",
            Ending::Delivered => b" is delivered",
            Ending::Dropped => b" is dropped",
            Ending::GivenUp => b" is given up",
        }
    }
}

impl Chart {
    /// Describes the directive at a line.
    pub(crate) fn tell(&mut self, line: u64, sentence: &[Piece<'_>]) -> Result<(), AllocError> {
        let begin = [
            Piece::Bytes(b"Line "),
            Piece::Number(line),
            Piece::Bytes(b": "),
        ];
        add_pieces(&mut self.told, &begin)?;
        add_pieces(&mut self.told, sentence)?;
        add_pieces(&mut self.told, &[Piece::Bytes(b".\n")])
    }

    /// Adds a line of a note, the first with its number.
    pub(crate) fn tell_note<'a>(
        &mut self,
        line: u64,
        words: &'a [u8],
        is_first: bool,
    ) -> Result<(), AllocError> {
        if is_first {
            let begin = [
                Piece::Bytes(b"Line "),
                Piece::Number(line),
                Piece::Bytes(b": note: "),
            ];
            add_pieces(&mut self.told, &begin)?;
        }
        add_pieces(&mut self.told, &[Piece::Bytes(words), Piece::Bytes(b"\n")])
    }

    /// Describes an event of a node.
    pub(crate) fn tell_mark<'a>(
        &mut self,
        line: u64,
        id: u64,
        words: &'a [u8],
    ) -> Result<(), AllocError> {
        let sentence = [
            Piece::Bytes(b"node "),
            Piece::Number(id),
            Piece::Bytes(b": "),
            Piece::Bytes(words),
        ];
        self.tell(line, &sentence)
    }

    /// Describes a message that is sent.
    pub(crate) fn tell_sent<'a>(
        &mut self,
        line: u64,
        from: u64,
        to: u64,
        words: &'a [u8],
    ) -> Result<(), AllocError> {
        let sentence = [
            Piece::Bytes(b"node "),
            Piece::Number(from),
            Piece::Bytes(b" sends "),
            Piece::Bytes(words),
            Piece::Bytes(b" to node "),
            Piece::Number(to),
        ];
        self.tell(line, &sentence)
    }

    /// Describes the ending of a message, or that it has none.
    pub(crate) fn tell_end<'a>(
        &mut self,
        line: u64,
        from: u64,
        to: u64,
        words: &'a [u8],
        ending: Ending,
    ) -> Result<(), AllocError> {
        let sentence = [
            Piece::Bytes(words),
            Piece::Bytes(b" from node "),
            Piece::Number(from),
            Piece::Bytes(b" to node "),
            Piece::Number(to),
            Piece::Bytes(ending.words()),
        ];
        self.tell(line, &sentence)
    }
}
