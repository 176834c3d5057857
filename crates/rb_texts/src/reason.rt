//! The line of a reason.
//!
//! It is indented below a message, and says why the message is ignored or a vote is refused, or which entries of a follower's log give way to its
//! leader's (Ongaro's thesis, section 3.5). Below a restart it says what the node lost.

ghost use Rattle.std.specs.Prelude.{◌≡◌, ◌-◌, ◌++◌, length, codes, decimal, IfOk, OnOk};
ghost use Rattle.rb_texts.specs.Items.{plain_item};
ghost use Rattle.rb_texts.specs.Reasons.{lost_reason, event_reason, reason_of, earlier_text, outdated_text, why_ignored_text, end_text, older_text, why_refused_text, few_entries_text, more_text, give_way_text, gives_way_text, reason_text, reason_front, shows_reasons, reason_line};
ghost use Rattle.rb_texts.specs.States.{role_text};

use crate::entries::add_entry;
use crate::item::Item;
use crate::lost::{add_lost, loses};
use crate::piece::{LinePiece, add_bytes, add_field, add_numbered, add_pieces};
use crate::states::role_name;
use rb_message::{Event, EventKind, HardState, Role, Unsaved, WhyIgnored, WhyRefused};
use rb_raftlog::Entries;
use rb_script::{LineText, Lines, WrittenLine};
use rb_vocab::Level;
use std::alloc::AllocError;

// The most entries that a reason shows.
const MAX_ENTRIES: usize = 3;

/// Why a message has no effect, which entries of a log give way to those of a message, or what a restart loses.
#[derive(Drop)]
pub enum Reason {
    Ignored(WhyIgnored),
    Refused(WhyRefused),
    /// The entries, and the index of the last of them.
    GivesWay { last: u64, entries: Entries },
    /// The saved hard state, and what the node had when it restarted.
    Lost { saved: HardState, unsaved: Unsaved },
}

fn lost_reason(saved: HardState, unsaved: Unsaved) -> Option<Reason>
    ensures { result ≡ lost_reason saved unsaved }
{
    if loses(saved, unsaved) {
        Some(Reason::Lost { saved, unsaved })
    } else {
        None
    }
}

fn event_reason(event: &Event) -> Result<Option<Reason>, AllocError>
    ensures { IfOk result (λ reason. reason ≡ event_reason event.now) }
{
    match &event.kind {
        EventKind::Ignored { why, .. } => Ok(Some(Reason::Ignored(*why))),
        EventKind::RefusedVote { why, .. } => Ok(Some(Reason::Refused(*why))),
        EventKind::RemovedEntries { last, entries, .. } => Ok(Some(Reason::GivesWay {
            last: *last,
            entries: entries.try_copy()?,
        })),
        EventKind::Restarted { saved, lost, .. } => Ok(lost_reason(*saved, *lost)),
        _ => Ok(None),
    }
}

/// The reason that an item tells: an event that a message is ignored, a vote refused, that entries give way, or that a restart loses something.
/// Entries cost a pointer.
pub fn reason_of(item: &Item<'_>) -> Result<Option<Reason>, AllocError>
    ensures { IfOk result (λ reason. reason ≡ reason_of (plain_item item.now)) }
{
    match item {
        Item::Event(event) => event_reason(event),
        _ => Ok(None),
    }
}

// Adds a text, a number, a text and another number.
fn add_numbers<'a>(
    line: &mut LineText,
    before: &'a [u8],
    n: u64,
    between: &'a [u8],
    other: u64,
) -> Result<(), AllocError>
    ensures { OnOk result (line.new ≡ line.old ++ (before.now ++ decimal n ++ between.now ++ decimal other)) }
{
    let pieces = [
        LinePiece::Field(before, n),
        LinePiece::Field(between, other),
    ];
    add_pieces(line, &pieces)
}

fn add_earlier(line: &mut LineText, term: u64, own: u64) -> Result<(), AllocError>
    ensures { OnOk result (line.new ≡ line.old ++ earlier_text term own) }
{
    add_numbers(line, b"its term ", term, b" is earlier than ", own)
}

fn add_hears_leader(line: &mut LineText, lead: u64) -> Result<(), AllocError>
    ensures { OnOk result (line.new ≡ line.old ++ (codes "leader " ++ decimal lead ++ codes " was heard of within an election timeout")) }
{
    let pieces = [
        LinePiece::Field(b"leader ", lead),
        LinePiece::Bytes(b" was heard of within an election timeout"),
    ];
    add_pieces(line, &pieces)
}

fn add_no_use(line: &mut LineText, role: Role) -> Result<(), AllocError>
    ensures { OnOk result (line.new ≡ line.old ++ (codes "a " ++ role_text role ++ codes " has no use for it")) }
{
    let pieces = [
        LinePiece::Bytes(b"a "),
        LinePiece::Bytes(role_name(role)),
        LinePiece::Bytes(b" has no use for it"),
    ];
    add_pieces(line, &pieces)
}

// Adds what a node refused, and what is known of it by now.
fn add_outdated<'a>(
    line: &mut LineText,
    from: u64,
    refused: u64,
    known: &'a [u8],
    at: u64,
) -> Result<(), AllocError>
    ensures { OnOk result (line.new ≡ line.old ++ outdated_text from refused known.now at) }
{
    let pieces = [
        LinePiece::Number(from),
        LinePiece::Field(b" refused ", refused),
        LinePiece::Field(known, at),
        LinePiece::Bytes(b" by now"),
    ];
    add_pieces(line, &pieces)
}

#[tactic(auto, unfolding(crate::specs::Reasons::why_ignored_text))]
fn add_why_ignored(line: &mut LineText, why: WhyIgnored) -> Result<(), AllocError>
    ensures { OnOk result (line.new ≡ line.old ++ why_ignored_text why) }
{
    match why {
        WhyIgnored::EarlierTerm { term, own } => add_earlier(line, term, own),
        WhyIgnored::HearsLeader { lead } => add_hears_leader(line, lead),
        WhyIgnored::NoUse { role } => add_no_use(line, role),
        WhyIgnored::NoLeader => add_bytes(line, b"no leader is known to pass it on to"),
        WhyIgnored::NoView { from } => add_field(line, b"the leader has no view of ", from),
        WhyIgnored::HoldsMore {
            from,
            refused,
            matched,
        } => add_outdated(line, from, refused, b", and holds ", matched),
        WhyIgnored::ProbesElsewhere {
            from,
            refused,
            probed,
        } => add_outdated(line, from, refused, b", and is probed at ", probed),
        WhyIgnored::AwaitsSnapshot { from } => {
            add_field(line, b"a snapshot is on its way to ", from)
        }
        WhyIgnored::NotAVoter { target } => add_numbered(line, target, b" is no voter"),
        WhyIgnored::LeadsAlready { target } => add_numbered(line, target, b" leads already"),
        WhyIgnored::IsUnderWay { target } => {
            add_field(line, b"the lead is on its way to ", target)
        }
    }
}

// Adds what is said of a log, and the term and index that it ends with.
fn add_end<'a>(
    line: &mut LineText,
    before: &'a [u8],
    term: u64,
    index: u64,
) -> Result<(), AllocError>
    ensures { OnOk result (line.new ≡ line.old ++ end_text before.now term index) }
{
    add_pieces(
        line,
        &[LinePiece::Bytes(before), LinePiece::Place(term, index)],
    )
}

fn add_older(
    line: &mut LineText,
    term: u64,
    index: u64,
    own_term: u64,
    own_index: u64,
) -> Result<(), AllocError>
    ensures { OnOk result (line.new ≡ line.old ++ older_text term index own_term own_index) }
{
    add_end(line, b"its log ends at ", term, index)?;
    add_end(line, b", the voter's at ", own_term, own_index)
}

fn add_knows_leader(line: &mut LineText, term: u64, lead: u64) -> Result<(), AllocError>
    ensures { OnOk result (line.new ≡ line.old ++ (decimal lead ++ codes " leads term " ++ decimal term)) }
{
    add_numbers(line, b"", lead, b" leads term ", term)
}

#[tactic(auto, unfolding(crate::specs::Reasons::why_refused_text))]
fn add_why_refused(line: &mut LineText, why: WhyRefused) -> Result<(), AllocError>
    ensures { OnOk result (line.new ≡ line.old ++ why_refused_text why) }
{
    match why {
        WhyRefused::EarlierTerm { term, own } => add_earlier(line, term, own),
        WhyRefused::Voted { term, vote } => {
            add_numbers(line, b"the vote of term ", term, b" is given to ", vote)
        }
        WhyRefused::KnowsLeader { term, lead } => add_knows_leader(line, term, lead),
        WhyRefused::OlderLog {
            term,
            index,
            own_term,
            own_index,
        } => add_older(line, term, index, own_term, own_index),
    }
}

// Adds the first few entries, the last of which has an index: one text before the first, and a comma before each other.
fn add_few_entries<'a>(
    line: &mut LineText,
    before: &'a [u8],
    last: u64,
    entries: &Entries,
) -> Result<(), AllocError>
    ensures { OnOk result (line.new ≡ line.old ++ few_entries_text MAX_ENTRIES before.now last entries.now) }
{
    let len = entries.len();
    let mut separator = before;
    for k in 0..len.min(MAX_ENTRIES) {
        add_bytes(line, separator)?;
        add_entry(
            line,
            last.saturating_sub((len - 1 - k) as u64),
            entries.entry(k),
        )?;
        separator = b", ";
    }
    Ok(())
}

// Adds how many more entries there are.
fn add_more(line: &mut LineText, more: u64) -> Result<(), AllocError>
    ensures { OnOk result (line.new ≡ line.old ++ more_text more) }
{
    if more == 0 {
        return Ok(());
    }
    let pieces = [LinePiece::Field(b" and ", more), LinePiece::Bytes(b" more")];
    add_pieces(line, &pieces)
}

fn give_way_text(len: usize) -> &'static [u8]
    ensures { result.now ≡ give_way_text len }
{
    if len == 1 {
        b" gives way"
    } else {
        b" give way"
    }
}

fn add_gives_way(line: &mut LineText, last: u64, entries: &Entries) -> Result<(), AllocError>
    ensures { OnOk result (line.new ≡ line.old ++ gives_way_text last entries.now) }
{
    let len = entries.len();
    add_few_entries(line, b"  ", last, entries)?;
    add_more(line, len.saturating_sub(MAX_ENTRIES) as u64)?;
    add_bytes(line, give_way_text(len))
}

impl WrittenLine for Reason {
    ghost use Rattle.rb_texts.specs.Reasons.{reason_text};

    ghost bytes = { reason_text };

    #[tactic(auto, unfolding(crate::specs::Reasons::reason_text))]
    fn add_to(&self, text: &mut LineText) -> Result<(), AllocError> {
        match self {
            Reason::Ignored(why) => {
                add_bytes(text, b"  ignored: ")?;
                add_why_ignored(text, *why)
            }
            Reason::Refused(why) => {
                add_bytes(text, b"  refused: ")?;
                add_why_refused(text, *why)
            }
            Reason::GivesWay { last, entries } => add_gives_way(text, *last, entries),
            Reason::Lost { saved, unsaved } => {
                add_bytes(text, b"  lost: ")?;
                add_lost(text, *saved, *unsaved)
            }
        }
    }
}

/// The number of bytes at the beginning of a reason's line, before what it says: blanks, and whether the message is ignored, a vote refused or
/// something lost.
pub fn reason_front(reason: &Reason) -> usize
    ensures { result ≡ reason_front reason.now }
{
    match reason {
        Reason::Ignored(_) | Reason::Refused(_) => 11,
        Reason::GivesWay { .. } => 2,
        Reason::Lost { .. } => 8,
    }
}

fn shows_reasons(level: Level) -> bool
    ensures { result ≡ shows_reasons level }
{
    level.rank() <= Level::Fatal.rank()
}

/// Adds the line of a reason, or nothing at level `none`. Where memory runs out, nothing is known of what `lines` holds then: it is only
/// good for being dropped.
pub fn put_reason(lines: &mut Lines, level: Level, reason: &Reason) -> Result<(), AllocError>
    ensures { OnOk result (lines.new ≡ lines.old ++ reason_line level reason.now) }
{
    if !shows_reasons(level) {
        return Ok(());
    }
    lines.push_written(reason)
}
