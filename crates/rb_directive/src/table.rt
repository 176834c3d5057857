//! The table of directives, with their words and options.
//!
//! Code and definitions share its rows. Every directive also has the option `log-level`.

ghost use Rattle.std.specs.Prelude.{◌≡◌, MatchOption, Some, None};
ghost use Rattle.rb_directive.specs.Table.{directives, options, row_in, is_name, option_in, option_of, with_key, argument_of, word_of};

use crate::argument::{Argument, Bytes, Flag, Ids, LevelFor, Number};
use crate::arguments::WordPlace;
use crate::limits::{
    MAX_BYTES, MAX_COMPACTED, MAX_FIRST_INDEX, MAX_ID, MAX_MESSAGES, MAX_NODES, MAX_ROUNDS,
    MAX_TIMEOUT, MAX_WINDOW,
};
use crate::name::Name;
use crate::node_command::NodeCommand;
use crate::node_command_with_arg::NodeCommandWithArg;

/// A directive and its words.
#[derive(Clone, Copy)]
pub struct Row {
    pub name: Name,
    /// The first word, if there is one.
    pub first: Option<Argument>,
    /// The second word, if there is one.
    pub second: Option<Argument>,
    /// Whether it takes any number of ids instead.
    pub takes_ids: bool,
}

/// An option of a directive.
#[derive(Clone, Copy)]
pub struct OptionRow {
    pub name: Name,
    pub option: Argument,
}

const ID: Argument = Argument::Number(Number::Id, 1, MAX_ID);

const PEER: Argument = Argument::Number(Number::Peer, 1, MAX_ID);

const FROM: Argument = Argument::Number(Number::From, 1, MAX_ID);

const TO: Argument = Argument::Number(Number::To, 1, MAX_ID);

const COUNT: Argument = Argument::Number(Number::Count, 1, MAX_NODES);

const BASE: Argument = Argument::Number(Number::Index, 0, MAX_FIRST_INDEX);

const COMPACTED: Argument = Argument::Number(Number::Index, 0, MAX_COMPACTED);

const INFLIGHT: Argument = Argument::Number(Number::Inflight, 1, MAX_WINDOW);

const ROUNDS: Argument = Argument::Number(Number::Rounds, 1, MAX_ROUNDS);

const TIMEOUT: Argument = Argument::Number(Number::Timeout, 1, MAX_TIMEOUT);

const SKIP: Argument = Argument::Number(Number::Skip, 0, MAX_MESSAGES);

const MESSAGES: Argument = Argument::Number(Number::Messages, 1, MAX_MESSAGES);

const PAYLOAD: Argument = Argument::Bytes(Bytes::Payload, 1, MAX_BYTES);

const CONTENT: Argument = Argument::Bytes(Bytes::Content, 0, MAX_BYTES);

const LEVEL: Argument = Argument::Level(LevelFor::Cluster);

const TRANSITION: Argument = Argument::Transition;

const TYPES: Argument = Argument::Types;

const DROP: Argument = Argument::Ids(Ids::Drop, None);

const VOTERS: Argument = Argument::Ids(Ids::Voters, Some(Ids::Learners));

const LEARNERS: Argument = Argument::Ids(Ids::Learners, Some(Ids::Voters));

/// The directives and their words.
#[rattlefmt::skip]
pub(crate) static DIRECTIVES: [Row; 20] = [
    Row { name: Name::AddNodes, first: Some(COUNT), second: None, takes_ids: false },
    Row { name: Name::NodeCommand(NodeCommand::Campaign), first: Some(ID), second: None, takes_ids: false },
    Row { name: Name::Propose, first: Some(ID), second: Some(PAYLOAD), takes_ids: false },
    Row { name: Name::ProposeConfChange, first: Some(ID), second: None, takes_ids: false },
    Row { name: Name::ProcessReady, first: None, second: None, takes_ids: true },
    Row { name: Name::DeliverMsgs, first: None, second: None, takes_ids: true },
    Row { name: Name::Stabilize, first: None, second: None, takes_ids: true },
    Row { name: Name::NodeCommand(NodeCommand::TickElection), first: Some(ID), second: None, takes_ids: false },
    Row { name: Name::NodeCommand(NodeCommand::TickHeartbeat), first: Some(ID), second: None, takes_ids: false },
    Row { name: Name::NodeCommandWithArg(NodeCommandWithArg::SetRandomizedElectionTimeout), first: Some(ID), second: None, takes_ids: false },
    Row { name: Name::NodeCommandWithArg(NodeCommandWithArg::TransferLeadership), first: None, second: None, takes_ids: false },
    Row { name: Name::NodeCommand(NodeCommand::ForgetLeader), first: Some(ID), second: None, takes_ids: false },
    Row { name: Name::NodeCommandWithArg(NodeCommandWithArg::ReportUnreachable), first: Some(ID), second: Some(PEER), takes_ids: false },
    Row { name: Name::NodeCommandWithArg(NodeCommandWithArg::SendSnapshot), first: Some(FROM), second: Some(TO), takes_ids: false },
    Row { name: Name::NodeCommandWithArg(NodeCommandWithArg::Compact), first: Some(ID), second: Some(COMPACTED), takes_ids: false },
    Row { name: Name::Restart, first: None, second: None, takes_ids: true },
    Row { name: Name::LogLevel, first: Some(LEVEL), second: None, takes_ids: false },
    Row { name: Name::RaftLog, first: Some(ID), second: None, takes_ids: false },
    Row { name: Name::Status, first: Some(ID), second: None, takes_ids: false },
    Row { name: Name::RaftState, first: None, second: None, takes_ids: false },
];

/// The options of the directives.
#[rattlefmt::skip]
pub(crate) static OPTIONS: [OptionRow; 19] = [
    OptionRow { name: Name::AddNodes, option: VOTERS },
    OptionRow { name: Name::AddNodes, option: LEARNERS },
    OptionRow { name: Name::AddNodes, option: BASE },
    OptionRow { name: Name::AddNodes, option: CONTENT },
    OptionRow { name: Name::AddNodes, option: INFLIGHT },
    OptionRow { name: Name::AddNodes, option: Argument::Flag(Flag::Prevote) },
    OptionRow { name: Name::AddNodes, option: Argument::Flag(Flag::CheckQuorum) },
    OptionRow { name: Name::AddNodes, option: Argument::Flag(Flag::StepDown) },
    OptionRow { name: Name::ProposeConfChange, option: Argument::Flag(Flag::FirstVersion) },
    OptionRow { name: Name::ProposeConfChange, option: TRANSITION },
    OptionRow { name: Name::DeliverMsgs, option: TYPES },
    OptionRow { name: Name::DeliverMsgs, option: DROP },
    OptionRow { name: Name::DeliverMsgs, option: FROM },
    OptionRow { name: Name::DeliverMsgs, option: SKIP },
    OptionRow { name: Name::DeliverMsgs, option: MESSAGES },
    OptionRow { name: Name::Stabilize, option: ROUNDS },
    OptionRow { name: Name::NodeCommandWithArg(NodeCommandWithArg::SetRandomizedElectionTimeout), option: TIMEOUT },
    OptionRow { name: Name::NodeCommandWithArg(NodeCommandWithArg::TransferLeadership), option: FROM },
    OptionRow { name: Name::NodeCommandWithArg(NodeCommandWithArg::TransferLeadership), option: TO },
];

// Finds the row of a directive.
fn row_in(rows: &'static [Row], name: &[u8]) -> Option<&'static Row>
    ensures { MatchOption result (row_in rows.now name.now ≡ None) (λ row. row_in rows.now name.now ≡ Some row.now) }
{
    for row in rows {
        if row.name.text() == name {
            return Some(row);
        }
    }
    None
}

/// Finds the row of a directive.
#[tactic(auto, unfolding(crate::specs::Table::directives))]
pub(crate) fn row_of(name: &[u8]) -> Option<&'static Row>
    ensures { MatchOption result (row_in directives name.now ≡ None) (λ row. row_in directives name.now ≡ Some row.now) }
{
    row_in(&DIRECTIVES, name)
}

/// Whether there is a directive with this name.
#[tactic(auto, unfolding(crate::specs::Table::directives))]
pub fn is_name(name: &[u8]) -> bool
    ensures { result ≡ is_name name.now }
{
    DIRECTIVES.iter().any(|row| row.name.text() == name)
}

// Finds the option of a directive in the list.
fn option_in(options: &[OptionRow], name: &[u8], key: &[u8]) -> Option<Argument>
    ensures { result ≡ option_in options.now name.now key.now }
{
    for row in options {
        if row.option.text() == key && row.name.text() == name {
            return Some(row.option);
        }
    }
    None
}

/// Finds the option of a directive.
#[tactic(auto, unfolding(crate::specs::Table::option_of, crate::specs::Table::options))]
pub(crate) fn option_of(name: &[u8], key: &[u8]) -> Option<Argument>
    ensures { result ≡ option_of name.now key.now }
{
    if key == b"log-level".as_slice() {
        return Some(Argument::Level(LevelFor::Directive));
    }
    option_in(&OPTIONS, name, key)
}

// Finds the first option with this key in the list.
fn with_key(options: &[OptionRow], key: &[u8]) -> Option<Argument>
    ensures { result ≡ with_key options.now key.now }
{
    for row in options {
        if row.option.text() == key {
            return Some(row.option);
        }
    }
    None
}

/// Finds the option with this key, of whichever directive comes first. A key takes the same values wherever it is one.
#[tactic(auto, unfolding(crate::specs::Table::argument_of, crate::specs::Table::options))]
pub fn argument_of(key: &[u8]) -> Option<Argument>
    ensures { result ≡ argument_of key.now }
{
    if key == b"log-level".as_slice() {
        return Some(Argument::Level(LevelFor::Directive));
    }
    with_key(&OPTIONS, key)
}

impl Row {
    /// The word at a position, if there is one.
    pub(crate) fn word(&self, place: WordPlace) -> Option<Argument>
        ensures { result ≡ word_of self.now place }
    {
        if self.takes_ids {
            return Some(Argument::Ids(Ids::Nodes, None));
        }
        match place {
            WordPlace::First => self.first,
            WordPlace::Second => self.second,
            WordPlace::Later => None,
        }
    }
}
