//! Changes of the configuration, as etcd's raft has them.

ghost use Rattle.std.specs.Prelude.{◌≡◌};
ghost use Rattle.rb_vocab.specs.Transitions.{transition_text, transition_of, is_auto};

/// How the cluster gets to a new configuration (`ConfChangeTransition` in etcd's raft).
#[derive(Clone, Copy, PartialEq, Eq, Debug)]
pub enum Transition {
    /// At once if one voter changes. Otherwise through a joint configuration, which the leader leaves automatically.
    Auto,
    /// Through a joint configuration, which another change leaves.
    Explicit,
    /// Through a joint configuration, which the leader leaves automatically.
    Implicit,
}

impl Transition {
    /// The name of the transition, as scripts and logs have it.
    pub fn text(self) -> &'static [u8]
        ensures { result.now ≡ transition_text self }
    {
        match self {
            Transition::Auto => b"auto",
            Transition::Explicit => b"explicit",
            Transition::Implicit => b"implicit",
        }
    }

    /// Whether it is `Auto`.
    pub fn is_auto(self) -> bool
        ensures { result ≡ is_auto self }
    {
        matches!(self, Transition::Auto)
    }
}

/// Finds the transition with this name.
#[tactic(auto, unfolding(crate::specs::Transitions::transition_of))]
pub fn transition_of(name: &[u8]) -> Option<Transition>
    ensures { result ≡ transition_of name.now }
{
    if name == Transition::Auto.text() {
        Some(Transition::Auto)
    } else if name == Transition::Explicit.text() {
        Some(Transition::Explicit)
    } else if name == Transition::Implicit.text() {
        Some(Transition::Implicit)
    } else {
        None
    }
}

/// The effect of one word of a change on its node (`ConfChangeType` in etcd's raft).
#[derive(Clone, Copy, PartialEq, Eq, Debug)]
pub enum WordKind {
    /// Makes the node a voter.
    Voter,
    /// Makes it a learner.
    Learner,
    /// Removes it from the configuration.
    Remove,
    /// Leaves the configuration unchanged.
    Update,
}

/// One word of a change: a node, and the effect on it.
#[derive(Clone, Copy, PartialEq, Eq, Debug)]
pub struct Word {
    pub kind: WordKind,
    pub id: u64,
}
