//! Ends of lists.

/// From which end a list is read.
#[derive(Clone, Copy)]
pub(crate) enum End {
    Front,
    Back,
}
