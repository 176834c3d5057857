//! Adding shapes to a picture.

use crate::chart::chart::Chart;
use crate::chart::css_class::CssClass;
use crate::chart::measure::{cut, width_of};
use crate::chart::shape::Shape;
use crate::chart::sizes::EDGE;
use std::alloc::{AllocError, Global};

// The sign for the rest of a text.
const MORE: &str = "…";

/// As much of a text as fits.
pub(crate) fn fitted(alloc: Global, text: &[u8], most: usize) -> Result<Vec<u8>, AllocError> {
    let Some(front) = cut(text, most) else {
        return Vec::from_slice(alloc, text);
    };
    let mut words = Vec::from_slice(alloc, front)?;
    words.extend_from_slice(MORE.as_bytes())?;
    Ok(words)
}

// Whether words of this class begin at their position.
fn begins_at_place(look: CssClass) -> bool {
    !matches!(
        look,
        CssClass::LineNumber | CssClass::Name | CssClass::LeftLabel(_)
    )
}

impl Chart {
    /// Makes the picture wide enough for a shape that reaches so far to the right.
    pub(crate) fn reach(&mut self, x: u64) {
        self.width = self.width.max(x.saturating_add(EDGE));
    }

    /// Adds words at a position, as many columns as fit.
    pub(crate) fn add_words(
        &mut self,
        look: CssClass,
        x: u64,
        y: u64,
        text: &[u8],
        most: usize,
    ) -> Result<(), AllocError> {
        match cut(text, most) {
            Some(front) => self.put_words(look, x, y, front, MORE.as_bytes()),
            None => self.put_words(look, x, y, text, &[]),
        }
    }

    /// Adds words at a position, in two parts.
    pub(crate) fn put_words(
        &mut self,
        look: CssClass,
        x: u64,
        y: u64,
        front: &[u8],
        back: &[u8],
    ) -> Result<(), AllocError> {
        if begins_at_place(look) {
            let width = width_of(front).saturating_add(width_of(back));
            self.reach(x.saturating_add(width));
        }
        let from = self.words.len();
        self.words.extend_from_slice(front)?;
        self.words.extend_from_slice(back)?;
        let to = self.words.len();
        self.texts.push(Shape::Words {
            look,
            x,
            y,
            from,
            to,
        })?;
        Ok(())
    }
}
