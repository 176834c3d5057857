//! The arguments read so far, by name.

ghost use Rattle.std.specs.Prelude.{◌≡◌};
ghost use Rattle.rb_directive.specs.Table.{after};
ghost use Rattle.rb_directive.specs.Arguments.{nothing, number_given, flag_given, bytes_given, level_given, ids_given, is_given, listed, excludes, number_set, flag_set, bytes_set, level_set, ids_set};

use crate::argument::{Argument, Bytes, Flag, Ids, LevelFor, Number};
use crate::flag_values::FlagValues;
use crate::id_list::IdList;
use crate::type_set::TypeSet;
use rb_vocab::{Level, ScriptWord, Transition};

/// The position of a word among the words of a directive.
#[derive(Clone, Copy)]
pub(crate) enum WordPlace {
    First,
    Second,
    Later,
}

impl WordPlace {
    /// The position of the next word.
    pub(crate) fn after(self) -> WordPlace
        ensures { result ≡ after self }
    {
        match self {
            WordPlace::First => WordPlace::Second,
            WordPlace::Second | WordPlace::Later => WordPlace::Later,
        }
    }
}

/// The values of the arguments. A value is `None` until it is given.
#[derive(Drop)]
pub(crate) struct Arguments<'d> {
    /// The position of the next word.
    pub(crate) next: WordPlace,
    pub(crate) count: Option<u64>,
    pub(crate) id: Option<u64>,
    pub(crate) peer: Option<u64>,
    pub(crate) from: Option<u64>,
    pub(crate) to: Option<u64>,
    pub(crate) index: Option<u64>,
    pub(crate) inflight: Option<u64>,
    pub(crate) rounds: Option<u64>,
    pub(crate) timeout: Option<u64>,
    pub(crate) skip: Option<u64>,
    pub(crate) messages: Option<u64>,
    pub(crate) payload: Option<ScriptWord<'d>>,
    pub(crate) content: Option<ScriptWord<'d>>,
    pub(crate) level: Option<Level>,
    pub(crate) log_level: Option<Level>,
    pub(crate) flags: FlagValues,
    pub(crate) transition: Option<Transition>,
    pub(crate) types: Option<TypeSet>,
    pub(crate) nodes: Option<IdList>,
    pub(crate) voters: Option<IdList>,
    pub(crate) learners: Option<IdList>,
    pub(crate) drop: Option<IdList>,
}

impl<'d> Arguments<'d> {
    /// No arguments.
    pub(crate) fn nothing() -> Arguments<'d>
        ensures { result ≡ nothing }
    {
        Arguments {
            next: WordPlace::First,
            count: None,
            id: None,
            peer: None,
            from: None,
            to: None,
            index: None,
            inflight: None,
            rounds: None,
            timeout: None,
            skip: None,
            messages: None,
            payload: None,
            content: None,
            level: None,
            log_level: None,
            flags: FlagValues::nothing(),
            transition: None,
            types: None,
            nodes: None,
            voters: None,
            learners: None,
            drop: None,
        }
    }

    /// The number with this name.
    pub(crate) fn number(&self, which: Number) -> Option<u64>
        ensures { result ≡ number_given which self.now }
    {
        match which {
            Number::Count => self.count,
            Number::Id => self.id,
            Number::Peer => self.peer,
            Number::From => self.from,
            Number::To => self.to,
            Number::Index => self.index,
            Number::Inflight => self.inflight,
            Number::Rounds => self.rounds,
            Number::Timeout => self.timeout,
            Number::Skip => self.skip,
            Number::Messages => self.messages,
        }
    }

    /// The flag with this name.
    pub(crate) fn flag(&self, which: Flag) -> Option<bool>
        ensures { result ≡ flag_given which self.now }
    {
        self.flags.get(which)
    }

    fn bytes(&self, which: Bytes) -> &Option<ScriptWord<'d>>
        ensures { result.now ≡ bytes_given which self.now }
    {
        match which {
            Bytes::Payload => &self.payload,
            Bytes::Content => &self.content,
        }
    }

    fn level_for(&self, which: LevelFor) -> Option<Level>
        ensures { result ≡ level_given which self.now }
    {
        match which {
            LevelFor::Cluster => self.level,
            LevelFor::Directive => self.log_level,
        }
    }

    fn ids(&self, which: Ids) -> &Option<IdList>
        ensures { result.now ≡ ids_given which self.now }
    {
        match which {
            Ids::Nodes => &self.nodes,
            Ids::Voters => &self.voters,
            Ids::Learners => &self.learners,
            Ids::Drop => &self.drop,
        }
    }

    /// Whether the argument is given.
    pub(crate) fn has(&self, argument: Argument) -> bool
        ensures { result ≡ is_given argument self.now }
    {
        match argument {
            Argument::Number(which, _, _) => self.number(which).is_some(),
            Argument::Bytes(which, _, _) => self.bytes(which).is_some(),
            Argument::Level(which) => self.level_for(which).is_some(),
            Argument::Flag(which) => self.flag(which).is_some(),
            Argument::Transition => self.transition.is_some(),
            Argument::Types => self.types.is_some(),
            Argument::Ids(which, _) => self.ids(which).is_some(),
        }
    }

    /// Copies the list, or returns an empty one.
    pub(crate) fn listed(&self, which: Ids) -> IdList
        ensures { result ≡ listed which self.now }
    {
        match self.ids(which) {
            Some(ids) => ids.copy(),
            None => IdList::new(),
        }
    }

    /// Whether the other list contains one of these ids.
    pub(crate) fn excludes(&self, other: Option<Ids>, ids: &IdList) -> bool
        ensures { result ≡ excludes other ids.now self.now }
    {
        let Some(which) = other else {
            return false;
        };
        match self.ids(which) {
            Some(others) => ids.shares(others),
            None => false,
        }
    }

    pub(crate) fn set_number(&mut self, which: Number, number: u64)
        ensures { self.new ≡ number_set which number self.old }
    {
        match which {
            Number::Count => self.count = Some(number),
            Number::Id => self.id = Some(number),
            Number::Peer => self.peer = Some(number),
            Number::From => self.from = Some(number),
            Number::To => self.to = Some(number),
            Number::Index => self.index = Some(number),
            Number::Inflight => self.inflight = Some(number),
            Number::Rounds => self.rounds = Some(number),
            Number::Timeout => self.timeout = Some(number),
            Number::Skip => self.skip = Some(number),
            Number::Messages => self.messages = Some(number),
        }
    }

    pub(crate) fn set_flag(&mut self, which: Flag, flag: bool)
        ensures { self.new ≡ flag_set which flag self.old }
    {
        self.flags = self.flags.with(which, flag);
    }

    pub(crate) fn set_bytes(&mut self, which: Bytes, bytes: &'d [u8])
        ensures { self.new ≡ bytes_set which bytes.now self.old }
    {
        match which {
            Bytes::Payload => self.payload = Some(ScriptWord::new(bytes)),
            Bytes::Content => self.content = Some(ScriptWord::new(bytes)),
        }
    }

    pub(crate) fn set_level(&mut self, which: LevelFor, level: Level)
        ensures { self.new ≡ level_set which level self.old }
    {
        match which {
            LevelFor::Cluster => self.level = Some(level),
            LevelFor::Directive => self.log_level = Some(level),
        }
    }

    pub(crate) fn set_ids(&mut self, which: Ids, ids: IdList)
        ensures { self.new ≡ ids_set which ids self.old }
    {
        match which {
            Ids::Nodes => self.nodes = Some(ids),
            Ids::Voters => self.voters = Some(ids),
            Ids::Learners => self.learners = Some(ids),
            Ids::Drop => self.drop = Some(ids),
        }
    }
}
