//! How far a run is, for whoever waits for it.
//!
//! It can't change the run: a [`RunProgress`] gets the directive that runs, and returns nothing.

use rb_script::DirectiveRef;

/// Receives the progress of a run.
pub trait RunProgress {
    /// A script of this many directives begins to run.
    fn begin(&self, directives: usize);

    /// The next directive begins.
    fn next(&self);

    /// The directive does something: a message is delivered, an event is shown. It is called that often, so it has to be quick.
    fn tell(&self, directive: &DirectiveRef<'_>);

    /// The script has run, or memory was refused. Nothing of the report is written yet.
    fn end(&self);
}

/// Ignores the progress.
#[derive(Clone, Copy)]
pub struct NoProgress;

impl RunProgress for NoProgress {
    fn begin(&self, _directives: usize) {}

    fn next(&self) {}

    fn tell(&self, _directive: &DirectiveRef<'_>) {}

    fn end(&self) {}
}
