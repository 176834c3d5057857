//! The difference between two scripts.

/// Where the common front of two scripts ends, and where their common rest begins in each.
#[derive(Clone, Copy)]
pub(crate) struct Splice {
    pub(crate) front: usize,
    pub(crate) old_rest: usize,
    pub(crate) new_rest: usize,
}

/// The points of the new script between which outputs are compared, and the old point after which the old mismatches are kept.
#[derive(Clone, Copy)]
pub(crate) struct Compared {
    pub(crate) from: usize,
    pub(crate) to: usize,
    pub(crate) old_stop: usize,
}

/// What the common front and rest contain.
#[derive(Clone, Copy)]
pub(crate) enum Common {
    /// The same blocks, also with the same expectations.
    Blocks,
    /// The same directives. Expectations may differ.
    Directives,
}

/// The effect of an edit on the run.
#[derive(Clone, Copy)]
pub(crate) enum Effect {
    /// Other directives run, between a front and a rest that stay.
    Replay(Splice),
    /// The directive at this place expects other lines.
    Expect(usize),
    /// Each directive expects its output.
    Accept,
}
