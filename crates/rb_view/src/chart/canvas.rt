//! The layout of a picture.
//!
//! Nodes are next to each other and time goes down: a row for each directive, with a slot for each item in it. A message's arrow
//! begins in the slot in which it is sent, and ends in the slot in which it is received. Which arrows there are isn't decided here.

use crate::chart::arrow::{Arrow, ArrowPlace};
use crate::chart::chart::Chart;
use crate::chart::columns::Columns;
use crate::chart::css_class::CssClass;
use crate::chart::labels::Label;
use crate::chart::marks::{
    committed_words, compacted_words, event_class, event_words, note_class, saved_words,
};
use crate::chart::part::ChartPhase;
use crate::chart::row_layout::RowLayout;
use crate::chart::sentence::{line_of, sentence};
use crate::chart::shape::Shape;
use crate::chart::shown::shown;
use crate::chart::sizes::{ASIDE, HEADING, MOST_HEAD, MOST_MARK, MOST_NOTE, least_right, middle};
use crate::chart::source::ScriptSource;
use rb_cluster::SharedNode;
use rb_message::{Event, EventKind};
use rb_raftlog::RaftLog;
use rb_text::Piece;
use rb_texts::{Item, Verb, event_form};
use std::alloc::{AllocError, Global};

// The right edge of a directive's line number in the gutter, and the left edge of its head.
const LINE_X: u64 = 42;

const HEAD_X: u64 = 50;

const HEAD_DOWN: u64 = 17;
// The names of nodes.
const NAME_Y: u64 = 22;
// How far the words of a mark are above the middle of their slot.
const MARK_UP: u64 = 2;

/// A picture that is being drawn, and the state of the run so far.
#[derive(Drop)]
pub(crate) struct Canvas<'a> {
    pub(crate) alloc: Global,
    pub(crate) chart: Chart,
    source: ScriptSource<'a>,
    // whether the line above belongs to a note
    is_in_note: bool,
    pub(crate) columns: Columns,
    pub(crate) slots: RowLayout,
    has_begun: bool,
    // the node whose ready is handled, and the first and the last entry that became durable
    ready: u64,
    saved: Option<(u64, u64)>,
    // for each arrow
    pub(crate) places: Vec<ArrowPlace>,
    pub(crate) labels: Vec<Label>,
}

impl<'a> Canvas<'a> {
    /// Nothing is drawn, and nothing is known but the script's bytes.
    pub(crate) fn new(alloc: Global, bytes: &'a [u8]) -> Canvas<'a> {
        Canvas {
            alloc,
            chart: Chart::new(alloc),
            source: ScriptSource::new(bytes),
            is_in_note: false,
            columns: Columns::new(alloc),
            slots: RowLayout::new(0, 0),
            has_begun: false,
            ready: 0,
            saved: None,
            places: Vec::new(alloc),
            labels: Vec::new(alloc),
        }
    }

    /// Draws an item that begins or ends an arrow.
    pub(crate) fn show(&mut self, item: &Item<'_>, arrow: Option<usize>) -> Result<(), AllocError> {
        // Entries that become durable in a row have one mark.
        if !matches!(item, Item::Save(_, _)) {
            self.end_saves()?;
        }
        match item {
            Item::Ready(id) => {
                self.ready = *id;
                Ok(())
            }
            Item::Save(index, _) => {
                self.save(*index);
                Ok(())
            }
            Item::HardState(hard) => {
                let ready = self.ready;
                self.see_commit(ready, hard.commit)
            }
            Item::Send(message) | Item::Moved(Verb::Queue, message) => self.send(message),
            Item::Moved(Verb::Deliver, message) => self.deliver(message, arrow),
            Item::Moved(Verb::Drop, message) => self.lose(message, arrow),
            Item::Moved(Verb::NoRoomFor, message) => self.give_up(message, arrow),
            Item::NoMessages | Item::Stopped(_) | Item::Error(_) => self.note(item),
            Item::Event(event) => self.tell(event),
            _ => Ok(()),
        }
    }

    /// The picture, and the positions of the arrows; the indexes are those of the arrows of messages in flight.
    pub(crate) fn finish(
        self,
        phase: ChartPhase,
        arrows: &[Arrow],
        positions: &[usize],
    ) -> Result<(Chart, Vec<ArrowPlace>), AllocError> {
        let mut canvas = self;
        canvas.end_saves()?;
        if !matches!(phase, ChartPhase::Below) {
            canvas.tell_rest()?;
        }
        canvas.end_row();
        canvas.tell_waiting(arrows, positions)?;
        let right = least_right(canvas.columns.len());
        canvas.chart.reach(right);
        let bottom = canvas.chart.height;
        for at in 0..canvas.columns.len() {
            if let Some(band) = canvas.columns.last_band(at, bottom) {
                canvas.chart.under.push(band)?;
            }
        }
        let Canvas {
            alloc: _,
            chart,
            source: _,
            is_in_note: _,
            columns: _,
            slots: _,
            has_begun: _,
            ready: _,
            saved: _,
            places,
            labels: _,
        } = canvas;
        Ok((chart, places))
    }

    // ---- rows

    fn end_row(&mut self) {
        if self.has_begun {
            self.chart.height = self.slots.bottom();
        }
    }

    fn open_row(&mut self, line: u64) -> Result<u64, AllocError> {
        let top = self.chart.height;
        self.slots = RowLayout::new(line, top);
        self.has_begun = true;
        Ok(top)
    }

    /// Begins the row of the directive at a line.
    pub(crate) fn begin(&mut self, line: u64) -> Result<(), AllocError> {
        self.end_saves()?;
        self.end_row();
        self.read_to(line, true)?;
        let top = self.open_row(line)?;
        self.chart.under.push(Shape::Edge { y: top })?;
        self.head(line, top.saturating_add(HEAD_DOWN))
    }

    fn line_number(&mut self, line: u64, y: u64) -> Result<(), AllocError> {
        let number = sentence(self.alloc, &[Piece::Number(line)])?;
        self.chart.add_words(
            CssClass::LineNumber,
            LINE_X,
            y,
            number.as_slice(),
            MOST_HEAD,
        )
    }

    // The line of a directive and its head.
    fn head(&mut self, line: u64, y: u64) -> Result<(), AllocError> {
        self.line_number(line, y)?;
        let head = shown(self.alloc, self.source.line())?;
        self.chart
            .add_words(CssClass::Head, HEAD_X, y, head.as_slice(), MOST_HEAD)?;
        self.chart.tell(line, &[Piece::Bytes(head.as_slice())])
    }

    /// Continues to the head at a line, which isn't drawn.
    pub(crate) fn pass(&mut self, line: u64) -> Result<(), AllocError> {
        self.read_to(line, false)
    }

    // Continues to the head at a line, and describes the notes above it if they are wanted.
    fn read_to(&mut self, line: u64, is_told: bool) -> Result<(), AllocError> {
        for _ in self.source.number()..line {
            self.read_line(is_told)?;
        }
        self.source.begin_head();
        Ok(())
    }

    // Continues to the next line, and describes its comment.
    fn read_line(&mut self, is_told: bool) -> Result<(), AllocError> {
        let line = self.source.number();
        let words = self.source.next_comment();
        let is_first = !self.is_in_note;
        self.is_in_note = !words.is_empty();
        if words.is_empty() || !is_told {
            return Ok(());
        }
        let text = shown(self.alloc, words)?;
        self.chart.tell_note(line, text.as_slice(), is_first)
    }

    // Describes the notes after the last directive.
    fn tell_rest(&mut self) -> Result<(), AllocError> {
        for _ in 0..self.source.len() {
            if self.source.len() == 0 {
                break;
            }
            self.read_line(true)?;
        }
        Ok(())
    }

    fn note(&mut self, item: &Item<'_>) -> Result<(), AllocError> {
        let words = line_of(self.alloc, item)?;
        let y = self.slots.next_note();
        self.chart
            .add_words(note_class(item), HEAD_X, y, words.as_slice(), MOST_NOTE)?;
        let line = self.slots.line;
        self.chart.tell(line, &[Piece::Bytes(words.as_slice())])
    }

    // ---- messages that come in from above

    /// The first drawn directive is at this line, and others are above it: the nodes have their roles.
    pub(crate) fn come_in<L: RaftLog>(
        &mut self,
        line: u64,
        nodes: &[SharedNode<L>],
        is_row: bool,
    ) -> Result<(), AllocError> {
        self.slots = RowLayout::new(line, HEADING);
        for shared in nodes {
            let state = shared.node().status();
            self.name(state.id)?;
            let base = state.log.first_index().saturating_sub(1);
            self.columns
                .come_in(state.role, HEADING, state.commit, base)?;
            let is = [
                Piece::Bytes(b"node "),
                Piece::Number(state.id),
                Piece::Bytes(b" is "),
                Piece::Bytes(crate::rows::role_name(state.role)),
            ];
            self.chart.tell(line, &is)?;
        }
        if is_row {
            self.row_above(line)?;
        }
        Ok(())
    }

    // A row of the messages that come in.
    fn row_above(&mut self, line: u64) -> Result<(), AllocError> {
        let top = self.open_row(line)?;
        self.chart.under.push(Shape::Edge { y: top })?;
        let y = top.saturating_add(HEAD_DOWN);
        let words = b"on its way before";
        self.chart
            .add_words(CssClass::Quiet, HEAD_X, y, words, MOST_NOTE)
    }

    // ---- nodes

    fn name(&mut self, id: u64) -> Result<(), AllocError> {
        let name = sentence(self.alloc, &[Piece::Bytes(b"node "), Piece::Number(id)])?;
        self.chart.add_words(
            CssClass::Name,
            middle(id),
            NAME_Y,
            name.as_slice(),
            MOST_HEAD,
        )
    }

    fn start(&mut self, id: u64) -> Result<(), AllocError> {
        self.columns.start(self.slots.top)?;
        self.name(id)
    }

    // Marks an event of a node. Returns the middle of its slot.
    fn mark(&mut self, id: u64, words: &[u8], look: CssClass) -> Result<u64, AllocError> {
        let y = self.slots.next();
        let x = middle(id).saturating_add(ASIDE);
        let up = y.saturating_sub(MARK_UP);
        self.chart.add_words(look, x, up, words, MOST_MARK)?;
        self.chart.tell_mark(self.slots.line, id, words)?;
        Ok(y)
    }

    fn tell(&mut self, event: &Event) -> Result<(), AllocError> {
        let id = event.id;
        if let EventKind::Started { .. } = &event.kind {
            return self.start(id);
        }
        let form = event_form(event);
        if form.is_hidden() {
            return Ok(());
        }
        let words = event_words(self.alloc, &form)?;
        let y = self.mark(id, words.as_slice(), event_class(form.mark))?;
        self.follow(event, y)
    }

    // Updates the state of a node by an event.
    fn follow(&mut self, event: &Event, y: u64) -> Result<(), AllocError> {
        match &event.kind {
            EventKind::Became { role, .. } => {
                if let Some(band) = self.columns.turn(event.id, *role, y) {
                    self.chart.under.push(band)?;
                }
                Ok(())
            }
            EventKind::Restarted { saved, base, .. } => {
                if let Some(band) = self.columns.restarts(event.id, y, saved.commit, *base) {
                    self.chart.under.push(band)?;
                }
                Ok(())
            }
            EventKind::Restored { index, .. } => {
                self.columns.restores(event.id, *index);
                Ok(())
            }
            _ => Ok(()),
        }
    }

    /// Marks the commits and logs that have moved at the end of a directive.
    pub(crate) fn see<L: RaftLog>(&mut self, nodes: &[SharedNode<L>]) -> Result<(), AllocError> {
        self.end_saves()?;
        for shared in nodes {
            let state = shared.node().status();
            self.see_commit(state.id, state.commit)?;
            self.see_base(state.id, state.log.first_index().saturating_sub(1))?;
        }
        Ok(())
    }

    fn see_commit(&mut self, id: u64, index: u64) -> Result<(), AllocError> {
        if self.columns.commits(id, index) {
            let words = committed_words(self.alloc, index)?;
            self.mark(id, words.as_slice(), CssClass::Moved)?;
        }
        Ok(())
    }

    fn see_base(&mut self, id: u64, index: u64) -> Result<(), AllocError> {
        if self.columns.compacts(id, index) {
            let words = compacted_words(self.alloc, index)?;
            self.mark(id, words.as_slice(), CssClass::Installed)?;
        }
        Ok(())
    }

    fn save(&mut self, index: u64) {
        let first = match self.saved {
            Some((first, _)) => first,
            None => index,
        };
        self.saved = Some((first, index));
    }

    fn end_saves(&mut self) -> Result<(), AllocError> {
        if let Some((first, last)) = self.saved {
            self.saved = None;
            let words = saved_words(self.alloc, first, last)?;
            let ready = self.ready;
            self.mark(ready, words.as_slice(), CssClass::Quiet)?;
        }
        Ok(())
    }
}
