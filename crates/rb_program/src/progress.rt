//! The directive that runs, on a terminal.

ghost use Rattle.std.specs.Prelude.{◌≡◌, true};

use rb_bench::RunProgress;
use rb_check::ProgressClock;
use rb_report::check::{put_head, shown_name};
use rb_script::{DirectiveRef, Through};
use std::alloc::{AllocError, Global};
use std::cell::Cell;
use std::str;
use std::time::Clock;

// Returns to the beginning of the line, and removes it.
const CLEARED: &str = "\r\x1b[K";

// The clock is read once in so many calls, which is some thousands of times a second.
const CALLS_APART: u32 = 250;

// The most bytes of a head that are shown: so the line fits a terminal of 80 columns.
const MAX_HEAD: usize = 60;

/// Names on standard error the directive that runs, once its script has run for a second. The line is removed when the script has run.
#[derive(Drop)]
pub(crate) struct TerminalProgress<'r, R> {
    rt: &'r R,
    // Whether a person sees it. If not, nothing is written.
    pub(crate) is_wanted: bool,
    clock: Cell<ProgressClock>,
    calls_left: Cell<u32>,
    // how many directives the script has, and how many of them have begun
    directives: Cell<usize>,
    place: Cell<usize>,
    // The line is on the terminal.
    is_shown: Cell<bool>,
}

impl<'r, R: Eprint + Clock + AllocGlobal> TerminalProgress<'r, R> {
    /// Shows nothing if it isn't wanted.
    pub(crate) fn new(rt: &'r R, is_wanted: bool) -> TerminalProgress<'r, R>
        ensures { result.is_wanted ≡ is_wanted }
    {
        TerminalProgress {
            rt,
            is_wanted,
            clock: Cell::new(ProgressClock::from_now(rt, is_wanted)),
            calls_left: Cell::new(0),
            directives: Cell::new(0),
            place: Cell::new(0),
            is_shown: Cell::new(false),
        }
    }

    /// Whether it is shown.
    pub(crate) fn is_wanted(&self) -> bool
        ensures { result ≡ self.now.is_wanted }
    {
        self.is_wanted
    }

    // Whether it is time to show the directive.
    fn is_due(&self) -> bool {
        let mut clock = self.clock.get();
        let is_due = clock.is_due(self.rt);
        self.clock.set(clock);
        is_due
    }

    // Shows the directive. Without memory for its head there is no line.
    fn show(&self, directive: &DirectiveRef<'_>)
        requires { self.now.is_wanted ≡ true }
    {
        let Ok(head) = shown_head(self.rt.alloc(), directive) else {
            return;
        };
        let Ok(head) = str::from_utf8(&head) else {
            return;
        };
        let place = self.place.get();
        let directives = self.directives.get();
        let _ = eprint!(self.rt; "{CLEARED}{place} of {directives}: {head}");
        self.is_shown.set(true);
    }

    // Removes the line.
    fn clear(&self)
        requires { self.now.is_wanted ≡ true }
    {
        let _ = eprint!(self.rt; "{CLEARED}");
        self.is_shown.set(false);
    }
}

// Copies the first bytes of a directive's head, as they are shown on a terminal.
fn shown_head(alloc: Global, directive: &DirectiveRef<'_>) -> Result<Vec<u8>, AllocError> {
    let mut sink = Through(Vec::new(alloc));
    let Ok(()) = put_head(&mut sink, directive) else {
        return Err(AllocError);
    };
    let head = sink.0;
    let length = head.len().min(MAX_HEAD);
    let mut shown = shown_name(alloc, &head[..length])?;
    shown.truncate(MAX_HEAD);
    Ok(shown)
}

impl<'r, R: Eprint + Clock + AllocGlobal> RunProgress for TerminalProgress<'r, R> {
    fn begin(&self, directives: usize) {
        self.directives.set(directives);
        self.place.set(0);
        self.calls_left.set(0);
        if self.is_wanted {
            self.clock.set(ProgressClock::from_now(self.rt, true));
        }
    }

    fn next(&self) {
        self.place.set(self.place.get().saturating_add(1));
    }

    fn tell(&self, directive: &DirectiveRef<'_>) {
        let left = self.calls_left.get();
        if left > 0 {
            self.calls_left.set(left - 1);
            return;
        }
        self.calls_left.set(CALLS_APART);
        if self.is_wanted && self.is_due() {
            self.show(directive);
        }
    }

    fn end(&self) {
        if self.is_wanted && self.is_shown.get() {
            self.clear();
        }
    }
}
