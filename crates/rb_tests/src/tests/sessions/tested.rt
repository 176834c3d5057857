//! A session as the tests see it: its calls over plain values, with nothing said of what they answer.
//!
//! What the tests do is written for whatever is `Tested`, so it is proved without knowing what a session is.

use rb_cluster::Meter;
use rb_machine::{Count, Machine};
use rb_replay::{Changed, Session, StartFault};
use rb_script::{Block, DirectiveRef, Edit, EditFault, Lines, Sink, Through, WriteFault};
use rb_text::put_number;
use std::alloc::Global;
use std::io;
use std::io::Write;

/// An edit: a position, and the text of a block or of an expectation.
#[derive(Clone, Copy)]
pub enum Ask {
    Insert(usize, &'static [u8]),
    Replace(usize, &'static [u8]),
    Remove(usize),
    Expect(usize, &'static [u8]),
    Accept,
}

fn block_of(alloc: Global, text: &[u8]) -> Option<Block> {
    Block::read(alloc, text).ok()
}

/// The lines of a text, each ended by one LF.
fn lines_of(alloc: Global, text: &[u8]) -> Option<Lines> {
    let mut lines = Lines::new(alloc);
    for line in text.split_inclusive(|b| *b == b'\n') {
        if let Some((_feed, line)) = line.split_last() {
            lines.push(line).ok()?;
        }
    }
    Some(lines)
}

/// The edit that is asked for. Nothing if there is no memory for it, or the text is not one block.
pub fn asked(alloc: Global, ask: Ask) -> Option<Edit> {
    match ask {
        Ask::Insert(place, text) => Some(Edit::Insert(place, block_of(alloc, text)?)),
        Ask::Replace(place, text) => Some(Edit::Replace(place, block_of(alloc, text)?)),
        Ask::Remove(place) => Some(Edit::Remove(place)),
        Ask::Expect(place, text) => Some(Edit::Expect(place, lines_of(alloc, text)?)),
        Ask::Accept => Some(Edit::Accept),
    }
}

pub trait Tested: Drop {
    /// A session on a script, and how many directives it ran.
    fn begin(
        alloc: Global,
        text: &[u8],
        every: u64,
        executed: &mut u64,
    ) -> Result<Self, StartFault>;

    /// Makes an edit, and tells how many directives it ran.
    fn change(&mut self, edit: &Edit, executed: &mut u64) -> Result<Changed, EditFault>;

    fn kept(&self) -> &[usize];

    /// Whether its report is this text. It takes no memory.
    fn reports(&self, text: &[u8]) -> bool;

    /// All that it shows: mismatches, checkpoints, each output, each directive and the three texts. Nothing if there is no memory.
    fn record(&self, alloc: Global) -> Option<Vec<u8>>;

    /// Whether that is all that it shows. It takes no memory.
    fn shows(&self, all: &[u8]) -> bool;
}

/// Compares what is written with a text, and takes no memory.
#[derive(Drop)]
struct Matching<'a> {
    rest: &'a [u8],
    differs: bool,
}

impl Matching<'_> {
    fn is_met(&self) -> bool {
        !self.differs && self.rest.is_empty()
    }
}

impl Write for Matching<'_> {
    fn write(&mut self, buf: &[u8]) -> io::Result<usize> {
        match self.rest.strip_prefix(buf) {
            Some(rest) => self.rest = rest,
            None => self.differs = true,
        }
        Ok(buf.len())
    }

    fn flush(&mut self) -> io::Result<()> {
        Ok(())
    }
}

fn put_numbers<S: Sink>(sink: &mut S, numbers: &[usize]) -> Result<(), WriteFault> {
    for number in numbers {
        put_number(sink, *number as u64)?;
        sink.put(b" ")?;
    }
    sink.put(b"\n")
}

fn put_argument<S: Sink>(
    sink: &mut S,
    directive: &DirectiveRef<'_>,
    i: usize,
) -> Result<(), WriteFault> {
    if i >= directive.args() {
        return Ok(());
    }
    sink.put(directive.key(i))?;
    if directive.has_equals(i) {
        sink.put(b"=")?;
    }
    for j in 0..directive.values(i) {
        sink.put(directive.value(i, j))?;
    }
    Ok(())
}

fn put_inputs<S: Sink>(sink: &mut S, directive: &DirectiveRef<'_>) -> Result<(), WriteFault> {
    for i in 0..directive.inputs() {
        sink.put(directive.input(i))?;
    }
    Ok(())
}

fn put_directive<S: Sink>(sink: &mut S, directive: &DirectiveRef<'_>) -> Result<(), WriteFault> {
    sink.put(directive.name())?;
    for i in 0..directive.args() {
        put_argument(sink, directive, i)?;
    }
    put_inputs(sink, directive)
}

fn put_block<S: Sink>(sink: &mut S, block: Option<&Block>) -> Result<(), WriteFault> {
    match block {
        Some(block) => put_directive(sink, &block.directive()),
        None => sink.put(b"no block"),
    }
}

fn put_output<S: Sink>(sink: &mut S, output: Option<&Lines>) -> Result<(), WriteFault> {
    match output {
        Some(lines) => sink.put(lines.text()),
        None => sink.put(b"no output"),
    }
}

/// Writes what is at each position, and at the ones before and after.
fn put_places<M: Machine, S: Sink>(session: &Session<M>, sink: &mut S) -> Result<(), WriteFault> {
    for place in 0..session.len().saturating_add(2) {
        put_block(sink, session.block(place))?;
        put_output(sink, session.output(place))?;
    }
    Ok(())
}

fn put_all<M: Machine, S: Sink>(session: &Session<M>, sink: &mut S) -> Result<(), WriteFault> {
    put_numbers(sink, session.mismatches())?;
    put_numbers(sink, session.checkpoints())?;
    put_places(session, sink)?;
    session.write_report(sink)?;
    session.write_script(sink)?;
    session.write_rewritten(sink)
}

impl<M: Machine<Meter = Meter>> Tested for Session<M> {
    fn begin(
        alloc: Global,
        text: &[u8],
        every: u64,
        executed: &mut u64,
    ) -> Result<Session<M>, StartFault> {
        let mut meter = Meter::new();
        let answer = Session::start(alloc, text, every, &mut meter);
        *executed = meter.count();
        answer
    }

    fn change(&mut self, edit: &Edit, executed: &mut u64) -> Result<Changed, EditFault> {
        let mut meter = Meter::new();
        let answer = self.edit(edit, &mut meter);
        *executed = meter.count();
        answer
    }

    fn kept(&self) -> &[usize] {
        self.checkpoints()
    }

    fn reports(&self, text: &[u8]) -> bool {
        let mut matching = Matching {
            rest: text,
            differs: false,
        };
        self.write_report(&mut Through(&mut matching)).is_ok() && matching.is_met()
    }

    fn record(&self, alloc: Global) -> Option<Vec<u8>> {
        let mut all = Through(Vec::new(alloc));
        match put_all(self, &mut all) {
            Ok(()) => Some(all.0),
            Err(_) => None,
        }
    }

    fn shows(&self, all: &[u8]) -> bool {
        let mut matching = Matching {
            rest: all,
            differs: false,
        };
        put_all(self, &mut Through(&mut matching)).is_ok() && matching.is_met()
    }
}
