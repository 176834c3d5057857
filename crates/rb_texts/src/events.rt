//! Events.
//!
//! An event is shown with its level, so that a reader sees at which levels it is hidden, and with its node.

ghost use Rattle.std.specs.Prelude.{◌≡◌, ◌++◌, OnOk};
ghost use Rattle.std.specs.List.{flat_map};
ghost use Rattle.rb_texts.specs.Configs.{config_text};
ghost use Rattle.rb_texts.specs.EventForms.{plain_pieces};
ghost use Rattle.rb_texts.specs.Events.{level_text, event_piece_text, given_text, event_text};

use crate::configs::add_config;
use crate::event_forms::event_form;
use crate::form::{EventPiece, EventPieces};
use crate::messages::answer_name;
use crate::piece::{LinePiece, add_bytes, add_field, add_number, add_pieces};
use rb_message::Event;
use rb_script::{LineText, WrittenLine};
use rb_tracker::Config;
use rb_vocab::Level;
use std::alloc::AllocError;

fn level_name(level: Level) -> &'static [u8]
    ensures { result.now ≡ level_text level }
{
    match level {
        Level::Debug => b"DEBUG ",
        Level::Info => b"INFO ",
        Level::Warn => b"WARN ",
        Level::Error => b"ERROR ",
        Level::Fatal => b"FATAL ",
        Level::None => b"NONE ",
    }
}

fn add_event_piece(line: &mut LineText, piece: EventPiece<'_>) -> Result<(), AllocError>
    ensures { OnOk result (line.new ≡ line.old ++ given_text piece.entry) }
{
    match piece {
        EventPiece::Words(before) => add_bytes(line, before),
        EventPiece::Number(before, n) => add_field(line, before, n),
        EventPiece::Place(before, term, index) => add_pieces(
            line,
            &[LinePiece::Bytes(before), LinePiece::Place(term, index)],
        ),
        EventPiece::Range(before, first, last) => add_pieces(
            line,
            &[
                LinePiece::Field(before, first),
                LinePiece::Field(b"..", last),
            ],
        ),
        EventPiece::Name(before, name) => add_pieces(
            line,
            &[LinePiece::Bytes(before), LinePiece::Bytes(name)],
        ),
        EventPiece::Answer(before, granted) => add_pieces(
            line,
            &[
                LinePiece::Bytes(before),
                LinePiece::Bytes(answer_name(granted)),
            ],
        ),
        EventPiece::Config(before, config) => add_config_after(line, before, config),
    }
}

// Adds the words, and a configuration.
fn add_config_after<'a>(
    line: &mut LineText,
    before: &'a [u8],
    config: &Config,
) -> Result<(), AllocError>
    ensures { OnOk result (line.new ≡ line.old ++ (before.now ++ config_text config.now)) }
{
    add_bytes(line, before)?;
    add_config(line, config)
}

fn add_each(line: &mut LineText, pieces: &[EventPiece<'_>]) -> Result<(), AllocError>
    ensures { OnOk result (line.new ≡ line.old ++ flat_map given_text pieces.now) }
{
    for piece in pieces {
        add_event_piece(line, *piece)?;
    }
    Ok(())
}

fn add_event_pieces(line: &mut LineText, pieces: &EventPieces<'_>) -> Result<(), AllocError>
    ensures { OnOk result (line.new ≡ line.old ++ flat_map event_piece_text (plain_pieces pieces.now)) }
{
    add_each(line, pieces.as_slice())
}

// The few words of an event in a picture, as a line.
impl WrittenLine for EventPieces<'_> {
    ghost use Rattle.std.specs.List.{flat_map};
    ghost use Rattle.rb_texts.specs.EventForms.{plain_pieces};
    ghost use Rattle.rb_texts.specs.Events.{event_piece_text};

    ghost bytes = { λ ps. flat_map event_piece_text (plain_pieces ps) };

    fn add_to(&self, text: &mut LineText) -> Result<(), AllocError> {
        add_event_pieces(text, self)
    }
}

#[tactic(auto, unfolding(crate::specs::Events::event_text))]
pub(crate) fn add_event(line: &mut LineText, event: &Event) -> Result<(), AllocError>
    ensures { OnOk result (line.new ≡ line.old ++ event_text event.now) }
{
    let form = event_form(event);
    add_bytes(line, level_name(form.level))?;
    add_number(line, event.id)?;
    add_event_pieces(line, &form.pieces)
}
