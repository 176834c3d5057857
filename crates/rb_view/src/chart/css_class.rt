//! The classes of elements, which assets/style.svg describes.

ghost use Rattle.std.specs.Prelude.{◌≡◌, codes, ◌++◌};
ghost use Rattle.rb_vocab.specs.MessageTypes.{class_text};
ghost use Rattle.rb_view.specs.Shapes.{delivery_state_text, look_text};

use rb_vocab::MessageClass;

// The class of a label that ends at its position.
fn left_name(class: MessageClass) -> &'static [u8]
    ensures { result.now ≡ class_text class ++ codes " end" }
{
    match class {
        MessageClass::Vote => b"vote end",
        MessageClass::Append => b"append end",
        MessageClass::Heartbeat => b"heartbeat end",
        MessageClass::Snapshot => b"snapshot end",
        MessageClass::Proposal => b"proposal end",
    }
}

/// The state of a message.
#[derive(Clone, Copy)]
pub enum DeliveryState {
    /// It is in flight.
    Waiting,
    Delivered,
    /// It was dropped, or given up.
    Lost,
}

impl DeliveryState {
    /// The class.
    pub(crate) fn name(self) -> &'static [u8]
        ensures { result.now ≡ delivery_state_text self }
    {
        match self {
            DeliveryState::Waiting => b"waiting",
            DeliveryState::Delivered => b"delivered",
            DeliveryState::Lost => b"lost",
        }
    }
}

/// The class of words.
#[derive(Clone, Copy)]
pub enum CssClass {
    LineNumber,
    /// A directive.
    Head,
    /// The name of a node.
    Name,
    Quiet,
    Bad,
    /// An election is won.
    Won,
    /// A node changes its role.
    Turn,
    /// A commit has moved.
    Moved,
    /// A configuration has changed.
    Change,
    /// A log begins later.
    Installed,
    /// The label of a message that goes to the right.
    Label(MessageClass),
    /// The label of a message that goes to the left.
    LeftLabel(MessageClass),
}

impl CssClass {
    /// The class.
    pub(crate) fn name(self) -> &'static [u8]
        ensures { result.now ≡ look_text self }
    {
        match self {
            CssClass::LineNumber => b"line",
            CssClass::Head => b"head",
            CssClass::Name => b"name",
            CssClass::Quiet => b"quiet",
            CssClass::Bad => b"bad",
            CssClass::Won => b"won",
            CssClass::Turn => b"turn",
            CssClass::Moved => b"moved",
            CssClass::Change => b"change",
            CssClass::Installed => b"installed",
            CssClass::Label(class) => class.name(),
            CssClass::LeftLabel(class) => left_name(class),
        }
    }
}
