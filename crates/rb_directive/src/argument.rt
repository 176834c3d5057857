//! The arguments of directives: their names and their allowed values.
//!
//! An argument without `=` is a word, identified by its position. One with `=` is an option, identified by its key.

ghost use Rattle.std.specs.Prelude.{◌≡◌};
ghost use Rattle.rb_directive.specs.Names.{number_text, bytes_text, level_text, flag_text, ids_text, argument_text};

/// The numbers that arguments give.
#[derive(Clone, Copy)]
pub enum Number {
    /// The number of nodes.
    Count,
    /// The node that acts.
    Id,
    /// The node in a report.
    Peer,
    From,
    To,
    Index,
    /// The most appends in flight to one node.
    Inflight,
    Rounds,
    Timeout,
    /// The number of messages that are skipped.
    Skip,
    /// The most messages that are chosen.
    Messages,
}

/// The bytes that arguments give.
#[derive(Clone, Copy)]
pub enum Bytes {
    Payload,
    Content,
}

/// The scope of a level.
#[derive(Clone, Copy)]
pub enum LevelFor {
    /// The cluster, from now on.
    Cluster,
    /// One directive.
    Directive,
}

/// The flags that arguments set.
#[derive(Clone, Copy)]
pub enum Flag {
    Prevote,
    CheckQuorum,
    StepDown,
    /// A change of the first version: exactly one word, and no transition.
    FirstVersion,
}

/// The number of flags.
pub(crate) const FLAGS: usize = 4;

/// The lists of ids that arguments give.
#[derive(Clone, Copy)]
pub enum Ids {
    /// The nodes that act.
    Nodes,
    Voters,
    Learners,
    /// The nodes whose messages are dropped.
    Drop,
}

/// An argument, with its allowed values.
#[derive(Clone, Copy)]
pub enum Argument {
    /// A number, with its bounds.
    Number(Number, u64, u64),
    /// Bytes, with the bounds of their length.
    Bytes(Bytes, usize, usize),
    /// The name of a level, in any letter case.
    Level(LevelFor),
    /// `true` or `false`.
    Flag(Flag),
    /// `auto`, `explicit` or `implicit`.
    Transition,
    /// Any number of message types.
    Types,
    /// Any number of ids, none of which may be in the other list.
    Ids(Ids, Option<Ids>),
}

impl Number {
    pub(crate) fn text(self) -> &'static [u8]
        ensures { result.now ≡ number_text self }
    {
        match self {
            Number::Count => b"n",
            Number::Id | Number::Peer => b"id",
            Number::From => b"from",
            Number::To => b"to",
            Number::Index => b"index",
            Number::Inflight => b"inflight",
            Number::Rounds => b"rounds",
            Number::Timeout => b"timeout",
            Number::Skip => b"skip",
            Number::Messages => b"count",
        }
    }
}

impl Bytes {
    pub(crate) fn text(self) -> &'static [u8]
        ensures { result.now ≡ bytes_text self }
    {
        match self {
            Bytes::Payload => b"payload",
            Bytes::Content => b"content",
        }
    }
}

impl LevelFor {
    pub(crate) fn text(self) -> &'static [u8]
        ensures { result.now ≡ level_text self }
    {
        match self {
            LevelFor::Cluster => b"level",
            LevelFor::Directive => b"log-level",
        }
    }
}

impl Flag {
    pub(crate) fn text(self) -> &'static [u8]
        ensures { result.now ≡ flag_text self }
    {
        match self {
            Flag::Prevote => b"prevote",
            Flag::CheckQuorum => b"checkquorum",
            Flag::StepDown => b"step-down-on-removal",
            Flag::FirstVersion => b"v1",
        }
    }
}

impl Ids {
    pub(crate) fn text(self) -> &'static [u8]
        ensures { result.now ≡ ids_text self }
    {
        match self {
            Ids::Nodes => b"id",
            Ids::Voters => b"voters",
            Ids::Learners => b"learners",
            Ids::Drop => b"drop",
        }
    }
}

impl Argument {
    /// The name of the argument: the key of an option, and the name in an error if it is missing.
    pub fn text(self) -> &'static [u8]
        ensures { result.now ≡ argument_text self }
    {
        match self {
            Argument::Number(which, _, _) => which.text(),
            Argument::Bytes(which, _, _) => which.text(),
            Argument::Level(which) => which.text(),
            Argument::Flag(which) => which.text(),
            Argument::Transition => b"transition",
            Argument::Types => b"type",
            Argument::Ids(which, _) => which.text(),
        }
    }
}
