//! The form of each event: everything that lines, rows and pictures show of it.

ghost use Rattle.std.specs.Prelude.{◌≡◌};
ghost use Rattle.rb_texts.specs.EventForms.{no_campaign_text, replaced_text, votes_text, fault_text, short_text, one, words, numbered, plain_pieces, plain_form, role_mark, role_words, started, restarted, became, few_of_vote, vote_counted, turned_down, ignored, conflict, switched, restored, transfer_starts, transfer_ends, cannot_campaign, dropped_proposal, replaced_change, refused_change, kind_form, event_form};

use crate::form::{EventForm, EventMark, EventPiece, EventPieces, EventShown};
use crate::states::role_name;
use rb_message::{Event, EventKind, HardState, Role, WhyNoCampaign, WhyReplaced};
use rb_tracker::{ChangeFault, Config, VoteResult};
use rb_vocab::{Level, MessageType};

// The reason why a node can't campaign.
fn no_campaign_name(why: WhyNoCampaign) -> &'static [u8]
    ensures { result.now ≡ no_campaign_text why }
{
    match why {
        WhyNoCampaign::Leader => b"leader",
        WhyNoCampaign::NotAVoter => b"not a voter",
        WhyNoCampaign::SnapshotPending => b"snapshot pending",
        WhyNoCampaign::ChangePending => b"change pending",
        WhyNoCampaign::TermLimit => b"term limit",
    }
}

// The reason why a change is replaced by an empty entry.
fn replaced_name(why: WhyReplaced) -> &'static [u8]
    ensures { result.now ≡ replaced_text why }
{
    match why {
        WhyReplaced::Unapplied => b"unapplied",
        WhyReplaced::Joint => b"joint",
        WhyReplaced::NotJoint => b"not joint",
    }
}

// The name of a result of a vote.
fn votes_name(votes: VoteResult) -> &'static [u8]
    ensures { result.now ≡ votes_text votes }
{
    match votes {
        VoteResult::Won => b"won",
        VoteResult::Lost => b"lost",
        VoteResult::Pending => b"pending",
    }
}

// The name of a fault of a change.
fn fault_name(fault: ChangeFault) -> &'static [u8]
    ensures { result.now ≡ fault_text fault }
{
    match fault {
        ChangeFault::AlreadyJoint => b"AlreadyJoint",
        ChangeFault::NotJoint => b"NotJoint",
        ChangeFault::SimpleWhileJoint => b"SimpleWhileJoint",
        ChangeFault::MoreThanOneVoter => b"MoreThanOneVoter",
        ChangeFault::NoVoters => b"NoVoters",
        ChangeFault::OutOfMemory => b"OutOfMemory",
    }
}

// The name of a type without the `Msg` before it.
fn short_name(message_type: MessageType) -> &'static [u8]
    ensures { result.now ≡ short_text message_type }
{
    message_type.text().get(3..).unwrap_or(&[])
}

fn started_form<'a>(term: u64, index: u64, config: &'a Config) -> EventForm<'a>
    ensures { plain_form result ≡ started term index config.now }
{
    let pieces = EventPieces::two(
        EventPiece::Place(b" started at ", term, index),
        EventPiece::Config(b" with ", config),
    );
    EventForm {
        level: Level::Info,
        shown: EventShown::Node,
        name: b"started",
        pieces,
        mark: EventMark::Quiet,
        few: EventPieces::none(),
    }
}

fn restarted_form(saved: HardState, base: u64, last: u64) -> EventForm<'static>
    ensures { plain_form result ≡ restarted saved base last }
{
    let pieces = EventPieces::four([
        EventPiece::Number(b" restarted at term=", saved.term),
        EventPiece::Number(b" vote=", saved.vote),
        EventPiece::Range(b" log=", base, last),
        EventPiece::Number(b" commit=", saved.commit),
    ]);
    let few = EventPieces::one(EventPiece::Number(b"restarted, t", saved.term));
    EventForm::told(Level::Info, b"restarted", pieces, EventMark::Restart, few)
}

fn role_mark(role: Role) -> EventMark
    ensures { result ≡ role_mark role }
{
    match role {
        Role::Leader => EventMark::Leads,
        Role::Candidate | Role::Precandidate | Role::Follower => EventMark::Role,
    }
}

// The words before the term of a role.
fn role_words(role: Role) -> &'static [u8]
    ensures { result.now ≡ role_words role }
{
    match role {
        Role::Leader => b"leader, t",
        Role::Candidate => b"candidate, t",
        Role::Precandidate => b"precandidate, t",
        Role::Follower => b"follower, t",
    }
}

fn became_form(role: Role, term: u64) -> EventForm<'static>
    ensures { plain_form result ≡ became role term }
{
    let pieces = EventPieces::two(
        EventPiece::Name(b" became ", role_name(role)),
        EventPiece::Number(b" at term ", term),
    );
    let few = EventPieces::one(EventPiece::Number(role_words(role), term));
    EventForm::told(Level::Info, b"became", pieces, role_mark(role), few)
}

// The few words of a vote that a node counts: its own or another's, and the result so far.
fn few_of_vote(own: bool, granted: bool, from: u64, votes: VoteResult) -> EventPieces<'static>
    ensures { plain_pieces result ≡ few_of_vote own granted from votes }
{
    let name = votes_name(votes);
    if own {
        return EventPieces::one(EventPiece::Name(b"own vote: ", name));
    }
    let whose: &'static [u8] = if granted { b"vote of " } else { b"no vote of " };
    EventPieces::two(
        EventPiece::Number(whose, from),
        EventPiece::Name(b": ", name),
    )
}

fn vote_form(
    own: bool,
    message_type: MessageType,
    granted: bool,
    from: u64,
    votes: VoteResult,
) -> EventForm<'static>
    ensures { plain_form result ≡ vote_counted own message_type granted from votes }
{
    let pieces = EventPieces::four([
        EventPiece::Name(b" has ", message_type.text()),
        EventPiece::Answer(b" ", granted),
        EventPiece::Number(b" from ", from),
        EventPiece::Name(b": ", votes_name(votes)),
    ]);
    let few = few_of_vote(own, granted, from, votes);
    EventForm::told(Level::Info, b"vote", pieces, EventMark::Quiet, few)
}

// What a node did with a message that it doesn't use: it ignored the message, or refused a vote.
fn turned_down<'a>(verb: &'a [u8], message_type: MessageType, from: u64) -> EventPieces<'a>
    ensures { plain_pieces result ≡ turned_down verb.now message_type from }
{
    EventPieces::two(
        EventPiece::Name(verb, message_type.text()),
        EventPiece::Number(b" from ", from),
    )
}

fn replaced_form(index: u64, why: WhyReplaced) -> EventForm<'static>
    ensures { plain_form result ≡ replaced_change index why }
{
    let name = replaced_name(why);
    let pieces = EventPieces::two(
        EventPiece::Number(b" replaced change at ", index),
        EventPiece::Name(b" by an empty entry: ", name),
    );
    let few = EventPieces::two(
        EventPiece::Number(b" change ", index),
        EventPiece::Name(b" made empty: ", name),
    );
    EventForm::told(
        Level::Info,
        b"replaced-change",
        pieces,
        EventMark::Trouble,
        few,
    )
}

fn refused_form(index: u64, fault: ChangeFault) -> EventForm<'static>
    ensures { plain_form result ≡ refused_change index fault }
{
    let name = fault_name(fault);
    let pieces = EventPieces::two(
        EventPiece::Number(b" refused change at ", index),
        EventPiece::Name(b": ", name),
    );
    let few = EventPieces::two(
        EventPiece::Number(b" change ", index),
        EventPiece::Name(b" refused: ", name),
    );
    EventForm::told(
        Level::Error,
        b"refused-change",
        pieces,
        EventMark::Trouble,
        few,
    )
}

// The words alone.
fn words<'a>(text: &'a [u8]) -> EventPieces<'a>
    ensures { plain_pieces result ≡ one (words text.now) }
{
    EventPieces::one(EventPiece::Words(text))
}

// The words, and a number after them.
fn numbered<'a>(text: &'a [u8], n: u64) -> EventPieces<'a>
    ensures { plain_pieces result ≡ one (numbered text.now n) }
{
    EventPieces::one(EventPiece::Number(text, n))
}

fn ignored_form(message_type: MessageType, from: u64) -> EventForm<'static>
    ensures { plain_form result ≡ ignored message_type from }
{
    let few = EventPieces::one(EventPiece::Name(b"ignores ", short_name(message_type)));
    EventForm::told(
        Level::Debug,
        b"ignored",
        turned_down(b" ignored ", message_type, from),
        EventMark::Quiet,
        few,
    )
}

fn conflict_form(index: u64, commit: u64) -> EventForm<'static>
    ensures { plain_form result ≡ conflict index commit }
{
    let pieces = EventPieces::two(
        EventPiece::Number(b" conflict at ", index),
        EventPiece::Number(b", commit ", commit),
    );
    EventForm::trouble(Level::Error, b"conflict", pieces)
}

fn switched_form<'a>(config: &'a Config) -> EventForm<'a>
    ensures { plain_form result ≡ switched config.now }
{
    let pieces = EventPieces::one(EventPiece::Config(b" switched to ", config));
    let few = EventPieces::one(EventPiece::Config(b"", config));
    EventForm::told(Level::Info, b"switched", pieces, EventMark::Config, few)
}

fn restored_form(term: u64, index: u64) -> EventForm<'static>
    ensures { plain_form result ≡ restored term index }
{
    let pieces = EventPieces::one(EventPiece::Place(b" restored snapshot ", term, index));
    let few = EventPieces::one(EventPiece::Place(b"snapshot ", term, index));
    EventForm::told(Level::Info, b"restored", pieces, EventMark::Snapshot, few)
}

fn starts_form(to: u64) -> EventForm<'static>
    ensures { plain_form result ≡ transfer_starts to }
{
    let pieces = numbered(b" starts transfer to ", to);
    let few = numbered(b"hands over to ", to);
    EventForm::told(
        Level::Info,
        b"transfer-starts",
        pieces,
        EventMark::Change,
        few,
    )
}

fn ends_form(to: u64) -> EventForm<'static>
    ensures { plain_form result ≡ transfer_ends to }
{
    let pieces = numbered(b" ends transfer to ", to);
    let few = EventPieces::two(
        EventPiece::Number(b"hand-over to ", to),
        EventPiece::Words(b" ends"),
    );
    EventForm::told(Level::Info, b"transfer-ends", pieces, EventMark::Quiet, few)
}

fn cannot_form(why: WhyNoCampaign) -> EventForm<'static>
    ensures { plain_form result ≡ cannot_campaign why }
{
    let pieces = EventPieces::one(EventPiece::Name(b" can't campaign: ", no_campaign_name(why)));
    EventForm::trouble(Level::Warn, b"cannot-campaign", pieces)
}

fn dropped_form() -> EventForm<'static>
    ensures { plain_form result ≡ dropped_proposal }
{
    EventForm::told(
        Level::Warn,
        b"dropped-proposal",
        words(b" dropped a proposal"),
        EventMark::Trouble,
        words(b" proposal dropped"),
    )
}

// The form of what happened at the node with this id.
#[tactic(auto, unfolding(crate::specs::EventForms::kind_form))]
fn kind_form<'a>(id: u64, kind: &'a EventKind) -> EventForm<'a>
    ensures { plain_form result ≡ kind_form id kind.now }
{
    match kind {
        EventKind::Started {
            term,
            index,
            config,
        } => started_form(*term, *index, config),
        EventKind::Restarted {
            saved,
            base,
            last,
            ..
        } => restarted_form(*saved, *base, *last),
        EventKind::Became { role, term } => became_form(*role, *term),
        EventKind::CannotCampaign { why } => cannot_form(*why),
        EventKind::VoteCounted {
            message_type,
            granted,
            from,
            result: votes,
        } => vote_form(*from == id, *message_type, *granted, *from, *votes),
        EventKind::Ignored {
            message_type,
            from,
            ..
        } => ignored_form(*message_type, *from),
        EventKind::RefusedVote {
            message_type,
            from,
            ..
        } => EventForm::hidden(turned_down(b" refused ", *message_type, *from)),
        EventKind::DroppedProposal => dropped_form(),
        EventKind::RemovedEntries { last, .. } => EventForm::hidden(numbered(
            b" removed entries up to ",
            *last,
        )),
        EventKind::Conflict { index, commit } => conflict_form(*index, *commit),
        EventKind::AppendsNothing => EventForm::warned(
            b"appends-nothing",
            b" appends nothing: index limit",
        ),
        EventKind::ReplacedChange { index, why } => replaced_form(*index, *why),
        EventKind::Switched { config } => switched_form(config),
        EventKind::RefusedChange { index, fault } => refused_form(*index, *fault),
        EventKind::Restored { term, index } => restored_form(*term, *index),
        EventKind::TransferStarts { to } => starts_form(*to),
        EventKind::TransferEnds { to } => ends_form(*to),
        EventKind::LostQuorum => EventForm::warned(b"lost-quorum", b" lost its quorum"),
    }
}

/// The form of an event.
pub fn event_form(event: &Event) -> EventForm<'_>
    ensures { plain_form result ≡ event_form event.now }
{
    kind_form(event.id, &event.kind)
}
