//! Sets of message types.

ghost use Rattle.std.specs.Prelude.{◌≡◌};
ghost use Rattle.rb_directive.specs.TypeSets.{no_types, with_type, has_type};

use rb_vocab::{MessageType, TYPES};

/// A set of message types.
#[derive(Clone, Copy)]
pub struct TypeSet {
    // for each type, by its number, whether the set contains it
    has: [bool; TYPES],
}

impl TypeSet {
    /// Makes an empty set.
    #[tactic(auto, unfolding(crate::specs::TypeSets::no_types))]
    pub(crate) fn new() -> TypeSet
        ensures { result ≡ no_types }
    {
        TypeSet {
            has: [false; TYPES],
        }
    }

    /// Adds a type.
    pub(crate) fn with(self, added: MessageType) -> TypeSet
        ensures { result ≡ with_type added self }
    {
        let mut has = self.has;
        has[added.number()] = true;
        TypeSet { has }
    }

    /// Whether the set contains the type.
    pub fn has(&self, wanted: MessageType) -> bool
        ensures { result ≡ has_type self.now wanted }
    {
        self.has[wanted.number()]
    }
}
