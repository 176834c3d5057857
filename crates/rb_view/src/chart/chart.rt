//! A picture.

use crate::chart::path::DrawnArrow;
use crate::chart::shape::Shape;
use crate::chart::sizes::HEADING;
use std::alloc::Global;
use std::marker::Model;

/// A picture, as shapes at their positions. Sizes and positions are in pixels, from the upper left corner.
#[derive(Drop)]
pub struct Chart {
    pub(crate) width: u64,
    pub(crate) height: u64,
    pub(crate) title: Vec<u8>,
    // the description for readers who can't see
    pub(crate) told: Vec<u8>,
    // from the lowest layer up
    pub(crate) under: Vec<Shape>,
    pub(crate) arrows: Vec<DrawnArrow>,
    pub(crate) texts: Vec<Shape>,
    // the words of all shapes, joined
    pub(crate) words: Vec<u8>,
}

impl Model for Chart {
    ghost use Rattle.rb_view.specs.Charts.{PlainChart};

    ghost Value = { PlainChart };

    ghost view = { λ c. record { width = c.width; height = c.height; title = c.title.items; told = c.told.items; under = c.under.items; arrows = c.arrows.items; texts = c.texts.items; words = c.words.items } };
}

impl Chart {
    ghost use Rattle.std.specs.Prelude.{◌≡◌};

    /// An empty picture. Takes no memory.
    pub(crate) fn new(alloc: Global) -> Chart {
        Chart {
            width: 0,
            height: HEADING,
            title: Vec::new(alloc),
            told: Vec::new(alloc),
            under: Vec::new(alloc),
            arrows: Vec::new(alloc),
            texts: Vec::new(alloc),
            words: Vec::new(alloc),
        }
    }

    /// The picture with a title, and these arrows.
    pub(crate) fn with(self, title: Vec<u8>, arrows: Vec<DrawnArrow>) -> Chart
        ensures { result ≡ record self { title = title.items; arrows = arrows.items } }
    {
        let mut chart = self;
        chart.title = title;
        chart.arrows = arrows;
        chart
    }
}
