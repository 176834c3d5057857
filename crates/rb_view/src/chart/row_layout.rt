//! The row of a directive: a slot for each item in it, and in its gutter one for each note.

use crate::chart::sizes::{ROW_BOTTOM, ROW_TOP, SLOT};

/// A row so far.
#[derive(Clone, Copy)]
pub(crate) struct RowLayout {
    /// The line of the directive.
    pub(crate) line: u64,
    pub(crate) top: u64,
    slots: u64,
    notes: u64,
}

impl RowLayout {
    pub(crate) fn new(line: u64, top: u64) -> RowLayout {
        RowLayout {
            line,
            top,
            slots: 0,
            notes: 0,
        }
    }

    // The end of n slots.
    fn end_of(&self, slots: u64) -> u64 {
        self.top
            .saturating_add(ROW_TOP)
            .saturating_add(SLOT.saturating_mul(slots))
    }

    /// The middle of the next slot.
    pub(crate) fn next(&mut self) -> u64 {
        self.slots = self.slots.saturating_add(1);
        self.end_of(self.slots).saturating_sub(SLOT / 2)
    }

    /// The middle of the next note.
    pub(crate) fn next_note(&mut self) -> u64 {
        self.notes = self.notes.saturating_add(1);
        self.end_of(self.notes).saturating_sub(SLOT / 2)
    }

    /// The end of the row.
    pub(crate) fn bottom(&self) -> u64 {
        self.end_of(self.slots.max(self.notes))
            .saturating_add(ROW_BOTTOM)
    }
}
