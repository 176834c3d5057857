//! The fields of messages: what a message says after its type and its term.
//!
//! Lines, rows and pictures all show these fields. A kind of message without fields isn't named here.

ghost use Rattle.std.specs.Prelude.{◌≡◌, ◌++◌, ◌∷◌, [], codes, OnOk};
ghost use Rattle.std.specs.List.{flat_map};
ghost use Rattle.rb_texts.specs.Entries.{body_text, place_text};
ghost use Rattle.rb_texts.specs.Messages.{answer_text, append_fields, fields_of, fields_text, place, plain_field, vote_fields};

use crate::entries::add_body;
use crate::messages::answer_name;
use crate::piece::{LinePiece, add_bytes, add_field, add_pieces, shown_if};
use rb_message::{Append, MessageKind};
use rb_raftlog::{Body, Snapshot};
use rb_script::LineText;
use std::alloc::AllocError;

/// A field of a message.
#[derive(Clone, Copy)]
pub enum MessageField<'a> {
    /// None: the message has fewer fields.
    Nothing,
    /// A number, after its name.
    Number(&'a [u8], u64),
    /// The term and the index of an entry, after its name.
    Place(&'a [u8], u64, u64),
    /// Whether what was asked for is granted.
    Answer(bool),
    /// A word, and whether it applies. Lines show it only then.
    Flag(&'a [u8], bool),
    /// Whether an append is refused. Lines show it by the names of the other fields.
    Refused(bool),
    /// What a proposal brings.
    Body(&'a Body),
}

/// The most fields that a message has.
pub const MOST_FIELDS: usize = 3;

// One field.
fn one(field: MessageField<'_>) -> [MessageField<'_>; MOST_FIELDS]
    ensures { flat_map plain_field result ≡ plain_field field.entry }
{
    [field, MessageField::Nothing, MessageField::Nothing]
}

// A candidate's last entry, and whether the leader told it to campaign.
fn vote_fields<'a>(
    last_term: u64,
    last_index: u64,
    transfer: bool,
) -> [MessageField<'a>; MOST_FIELDS]
    ensures { flat_map plain_field result ≡ vote_fields last_term last_index transfer }
{
    [
        MessageField::Place(b" last=", last_term, last_index),
        MessageField::Flag(b" transfer", transfer),
        MessageField::Nothing,
    ]
}

fn append_fields<'a>(append: &Append) -> [MessageField<'a>; MOST_FIELDS]
    ensures { flat_map plain_field result ≡ append_fields append.now }
{
    let entries = append.entries().len() as u64;
    [
        MessageField::Place(b" prev=", append.prev_term(), append.prev()),
        MessageField::Number(b" commit=", append.commit()),
        MessageField::Number(b" entries=", entries),
    ]
}

fn snapshot_fields<'a>(snapshot: &Snapshot) -> [MessageField<'a>; MOST_FIELDS]
    ensures { flat_map plain_field result ≡ place (codes " snapshot=") snapshot.now.term snapshot.now.index ∷ [] }
{
    one(MessageField::Place(b" snapshot=", snapshot.term, snapshot.index))
}

/// The fields of a kind of message, in order.
#[tactic(auto, unfolding(crate::specs::Messages::fields_of))]
pub fn kind_fields(kind: &MessageKind) -> [MessageField<'_>; MOST_FIELDS]
    ensures { flat_map plain_field result ≡ fields_of kind.now }
{
    match kind {
        MessageKind::Vote {
            last_term,
            last_index,
            transfer,
        } => vote_fields(*last_term, *last_index, *transfer),
        MessageKind::PreVote {
            last_term,
            last_index,
        } => vote_fields(*last_term, *last_index, false),
        MessageKind::VoteResponse { granted } | MessageKind::PreVoteResponse { granted } => {
            one(MessageField::Answer(*granted))
        }
        MessageKind::Append(append) => append_fields(append),
        MessageKind::AppendResponse { matched } => [
            MessageField::Refused(false),
            MessageField::Number(b" match=", *matched),
            MessageField::Nothing,
        ],
        MessageKind::AppendRefusal { refused, hint } => [
            MessageField::Refused(true),
            MessageField::Number(b" refused=", *refused),
            MessageField::Number(b" hint=", *hint),
        ],
        MessageKind::Heartbeat { commit } => one(MessageField::Number(b" commit=", *commit)),
        MessageKind::Snapshot(install) => snapshot_fields(install.snapshot()),
        MessageKind::Proposal(body) => one(MessageField::Body(body)),
        MessageKind::TransferLeader { target } => one(MessageField::Number(b" target=", *target)),
        _ => [MessageField::Nothing; MOST_FIELDS],
    }
}

fn add_answer(line: &mut LineText, granted: bool) -> Result<(), AllocError>
    ensures { OnOk result (line.new ≡ line.old ++ (codes " " ++ answer_text granted)) }
{
    let pieces = [
        LinePiece::Bytes(b" "),
        LinePiece::Bytes(answer_name(granted)),
    ];
    add_pieces(line, &pieces)
}

fn add_named_place(
    line: &mut LineText,
    name: &[u8],
    term: u64,
    index: u64,
) -> Result<(), AllocError>
    ensures { OnOk result (line.new ≡ line.old ++ (name.now ++ place_text term index)) }
{
    let pieces = [LinePiece::Bytes(name), LinePiece::Place(term, index)];
    add_pieces(line, &pieces)
}

fn add_proposal(line: &mut LineText, body: &Body) -> Result<(), AllocError>
    ensures { OnOk result (line.new ≡ line.old ++ (codes " " ++ body_text body.now)) }
{
    add_bytes(line, b" ")?;
    add_body(line, body)
}

fn add_one(line: &mut LineText, field: MessageField<'_>) -> Result<(), AllocError>
    ensures { OnOk result (line.new ≡ line.old ++ fields_text (plain_field field.entry)) }
{
    match field {
        MessageField::Nothing | MessageField::Refused(_) => Ok(()),
        MessageField::Number(name, n) => add_field(line, name, n),
        MessageField::Place(name, term, index) => add_named_place(line, name, term, index),
        MessageField::Answer(granted) => add_answer(line, granted),
        MessageField::Flag(word, applies) => add_bytes(line, shown_if(applies, word)),
        MessageField::Body(body) => add_proposal(line, body),
    }
}

/// Adds the fields to the line.
pub(crate) fn add_fields(line: &mut LineText, fields: &[MessageField<'_>]) -> Result<(), AllocError>
    ensures { OnOk result (line.new ≡ line.old ++ flat_map (λ f. fields_text (plain_field f)) fields.now) }
{
    for field in fields {
        add_one(line, *field)?;
    }
    Ok(())
}
