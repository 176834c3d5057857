//! Events of nodes and notes on directives in few words, and their classes (docs/USING.md, "Pages and pictures").

use crate::chart::css_class::CssClass;
use crate::chart::sentence::{with_one, with_two};
use rb_script::Lines;
use rb_texts::{EventForm, EventMark, Item};
use std::alloc::{AllocError, Global};

/// The entries that a node saves.
pub(crate) fn saved_words(alloc: Global, first: u64, last: u64) -> Result<Vec<u8>, AllocError> {
    if first == last {
        return with_one(alloc, &[], b"saves ", first);
    }
    with_two(alloc, &[], b"saves ", first, "–".as_bytes(), last)
}

/// The index up to which a node knows entries to be committed.
pub(crate) fn committed_words(alloc: Global, index: u64) -> Result<Vec<u8>, AllocError> {
    with_one(alloc, &[], "✓ commit ".as_bytes(), index)
}

/// The index after which a node's log begins.
pub(crate) fn compacted_words(alloc: Global, index: u64) -> Result<Vec<u8>, AllocError> {
    with_one(alloc, &[], "▣ compacted to ".as_bytes(), index)
}

// The symbol of a mark.
fn symbol(mark: EventMark) -> &'static [u8] {
    let symbol = match mark {
        EventMark::Leads => "★ ",
        EventMark::Config => "◆ ",
        EventMark::Snapshot => "▣ ",
        EventMark::Restart => "↻ ",
        EventMark::Trouble => "!",
        EventMark::Role | EventMark::Change | EventMark::Quiet => "",
    };
    symbol.as_bytes()
}

/// The few words of an event.
pub(crate) fn event_words(alloc: Global, form: &EventForm<'_>) -> Result<Vec<u8>, AllocError> {
    let mut text = Vec::from_slice(alloc, symbol(form.mark))?;
    let mut words = Lines::new(alloc);
    words.push_written(&form.few)?;
    if !words.is_empty() {
        text.extend_from_slice(words.line(0))?;
    }
    Ok(text)
}

/// The class of an event.
pub(crate) fn event_class(mark: EventMark) -> CssClass {
    match mark {
        EventMark::Leads => CssClass::Won,
        EventMark::Role => CssClass::Turn,
        EventMark::Config | EventMark::Change => CssClass::Change,
        EventMark::Snapshot => CssClass::Installed,
        EventMark::Restart => CssClass::Turn,
        EventMark::Trouble => CssClass::Bad,
        EventMark::Quiet => CssClass::Quiet,
    }
}

/// How what is said of a directive looks.
pub(crate) fn note_class(item: &Item<'_>) -> CssClass {
    match item {
        Item::Error(_) => CssClass::Bad,
        _ => CssClass::Quiet,
    }
}
