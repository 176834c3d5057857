//! The arrows of a picture: where each begins and ends, its label and its description.

use crate::chart::arrow::{Arrow, ArrowPlace};
use crate::chart::canvas::Canvas;
use crate::chart::labels::Label;
use crate::chart::messages::{aim_words, label_words, message_words};
use crate::chart::sizes::{SLOT, right_edge};
use crate::chart::telling::Ending;
use rb_directive::MAX_ID;
use rb_message::Message;
use rb_vocab::TYPES;
use std::alloc::AllocError;

// How far down the arrow of a message goes that doesn't arrive.
const DOWN: u64 = 8;

// One for each id, from 0 on, and each type.
const QUEUES: usize = (MAX_ID as usize + 1) * TYPES;

impl<'a> Canvas<'a> {
    /// A message is sent, and its arrow begins.
    pub(crate) fn send(&mut self, message: &Message) -> Result<(), AllocError> {
        let y = self.slots.next();
        let is_loop = message.to == message.from;
        let end = y.saturating_add(if is_loop { SLOT } else { DOWN });
        self.places.push(ArrowPlace {
            y,
            end,
            is_short: true,
        })?;
        self.chart.reach(right_edge(message.from, message.to));
        let label = self.label(message, y)?;
        self.labels.push(label)?;
        Ok(())
    }

    fn label(&mut self, message: &Message, y: u64) -> Result<Label, AllocError> {
        let words = message_words(self.alloc, message)?;
        let line = self.slots.line;
        self.chart
            .tell_sent(line, message.from, message.to, words.as_slice())?;
        let aim = aim_words(self.alloc, message)?;
        let label = label_words(self.alloc, message, words.as_slice())?;
        Label::add(
            &mut self.chart,
            message,
            y,
            aim.as_slice(),
            label.as_slice(),
        )
    }

    // An arrow ends in the next slot.
    fn end_arrow(&mut self, arrow: Option<usize>, end: u64) {
        let Some(at) = arrow else {
            return;
        };
        if let Some(place) = self.places.get_mut(at) {
            place.end = end;
            place.is_short = false;
        }
    }

    pub(crate) fn deliver(
        &mut self,
        message: &Message,
        arrow: Option<usize>,
    ) -> Result<(), AllocError> {
        let end = self.slots.next();
        self.end_arrow(arrow, end);
        if let Some(label) = self.label_of(arrow) {
            label.drop_aim(&mut self.chart);
        }
        self.tell_end(message, Ending::Delivered)
    }

    fn label_of(&self, arrow: Option<usize>) -> Option<Label> {
        match self.labels.get(arrow?) {
            Some(label) => Some(*label),
            None => None,
        }
    }

    pub(crate) fn lose(
        &mut self,
        message: &Message,
        arrow: Option<usize>,
    ) -> Result<(), AllocError> {
        let end = self.slots.next();
        if self.columns.has(message.to) {
            self.end_arrow(arrow, end);
        }
        self.tell_end(message, Ending::Dropped)
    }

    // An arrow that is new begins here too.
    pub(crate) fn give_up(
        &mut self,
        message: &Message,
        arrow: Option<usize>,
    ) -> Result<(), AllocError> {
        if arrow == Some(self.places.len()) {
            self.send(message)?;
        }
        self.tell_end(message, Ending::GivenUp)
    }

    fn tell_end(&mut self, message: &Message, ending: Ending) -> Result<(), AllocError> {
        let words = message_words(self.alloc, message)?;
        let line = self.slots.line;
        self.chart
            .tell_end(line, message.from, message.to, words.as_slice(), ending)
    }

    // Describes the messages in flight: by node, and by type.
    pub(crate) fn tell_waiting(
        &mut self,
        arrows: &[Arrow],
        positions: &[usize],
    ) -> Result<(), AllocError> {
        for queue in 0..QUEUES {
            self.tell_queue(arrows, positions, queue)?;
        }
        Ok(())
    }

    fn tell_queue(
        &mut self,
        arrows: &[Arrow],
        positions: &[usize],
        queue: usize,
    ) -> Result<(), AllocError> {
        for at in positions {
            if let Some(arrow) = arrows.get(*at) {
                if queue_of(*arrow) == queue {
                    self.tell_arrow(*arrow, *at)?;
                }
            }
        }
        Ok(())
    }

    fn tell_arrow(&mut self, arrow: Arrow, at: usize) -> Result<(), AllocError> {
        let Some(label) = self.label_of(Some(at)) else {
            return Ok(());
        };
        let words = label.words(self.alloc, &self.chart)?;
        let line = self.slots.line;
        self.chart.tell_end(
            line,
            arrow.from,
            arrow.to,
            words.as_slice(),
            Ending::Waiting,
        )
    }
}

// The index of a message in flight, by its node and its type.
fn queue_of(arrow: Arrow) -> usize {
    (arrow.to as usize)
        .saturating_mul(TYPES)
        .saturating_add(arrow.message_type as usize)
}
