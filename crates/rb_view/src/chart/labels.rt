//! Labels of messages: along the level part of an arrow, and before them the receiver until the arrow shows it.

use crate::chart::chart::Chart;
use crate::chart::css_class::CssClass;
use crate::chart::shape::{Shape, words_at};
use crate::chart::sizes::{ASIDE, beside, middle};
use rb_message::Message;
use std::alloc::{AllocError, Global};

const LABEL_UP: u64 = 5;

/// A label: which text it is, and where its words after the receiver begin and end.
#[derive(Clone, Copy)]
pub(crate) struct Label {
    text: usize,
    from: usize,
    to: usize,
}

fn label_class(message: &Message, is_left: bool) -> CssClass {
    let class = message.kind.message_type().class();
    if is_left {
        CssClass::LeftLabel(class)
    } else {
        CssClass::Label(class)
    }
}

impl Label {
    /// Adds the label of a message that is sent at `y`.
    pub(crate) fn add(
        chart: &mut Chart,
        message: &Message,
        y: u64,
        aim: &[u8],
        words: &[u8],
    ) -> Result<Label, AllocError> {
        let is_left = message.to < message.from;
        let x = beside(middle(message.from), is_left, ASIDE);
        let look = label_class(message, is_left);
        let text = chart.texts.len();
        let from = chart.words.len().saturating_add(aim.len());
        chart.put_words(look, x, y.saturating_sub(LABEL_UP), aim, words)?;
        let to = chart.words.len();
        Ok(Label { text, from, to })
    }

    /// Its words without the receiver.
    pub(crate) fn words(self, alloc: Global, chart: &Chart) -> Result<Vec<u8>, AllocError> {
        Vec::from_slice(alloc, words_at(chart.words.as_slice(), self.from, self.to))
    }

    /// An arrow shows the receiver.
    pub(crate) fn drop_aim(self, chart: &mut Chart) {
        if let Some(shape) = chart.texts.get_mut(self.text) {
            *shape = with_words_from(*shape, self.from);
        }
    }
}

// The same shape with words that begin at an index.
fn with_words_from(shape: Shape, from: usize) -> Shape {
    match shape {
        Shape::Words { look, x, y, to, .. } => Shape::Words {
            look,
            x,
            y,
            from,
            to,
        },
        _ => shape,
    }
}
