//! An arrow of a picture.

use crate::chart::css_class::DeliveryState;
use rb_vocab::MessageType;

/// A message and its ending.
#[derive(Clone, Copy)]
pub struct Arrow {
    pub from: u64,
    pub to: u64,
    pub message_type: MessageType,
    pub state: DeliveryState,
}

/// The position of an arrow: the heights at which it begins and ends, and whether it ends next to its label instead of at its receiver.
#[derive(Clone, Copy)]
pub struct ArrowPlace {
    pub y: u64,
    pub end: u64,
    pub is_short: bool,
}
