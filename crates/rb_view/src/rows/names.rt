//! The names of the rows of messages.

ghost use Rattle.std.specs.Prelude.{◌≡◌};
ghost use Rattle.rb_view.specs.MessageRows.{verb_name};

use rb_texts::Verb;

/// The name of a moved message's row.
pub(crate) fn verb_name(verb: Verb) -> &'static [u8]
    ensures { result.now ≡ verb_name verb }
{
    match verb {
        Verb::Deliver => b"deliver",
        Verb::Drop => b"drop",
        Verb::Queue => b"queue",
        Verb::NoRoomFor => b"no-room",
    }
}
