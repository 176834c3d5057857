//! Which outputs are accepted.

ghost use Rattle.std.specs.Prelude.{◌≡◌, ◌==◌};
ghost use Rattle.std.specs.List.{list_any};
ghost use Rattle.rb_script_report.specs.Accepting.{is_picked};

/// Which outputs are accepted.
#[derive(Clone, Copy, Debug)]
pub struct AcceptOptions<'a> {
    /// The directives.
    pub picked: AcceptFilter<'a>,
    /// Whether new errors are accepted too.
    pub errors: bool,
}

/// The directives whose outputs are accepted.
#[derive(Clone, Copy, Debug)]
pub enum AcceptFilter<'a> {
    /// All directives.
    All,
    /// Those whose heads begin on these lines.
    Heads(&'a [usize]),
    /// Those whose heads begin on this line or above it.
    UpTo(usize),
}

/// Whether the directive with its head on this line is picked.
pub fn is_picked(picked: AcceptFilter<'_>, line: usize) -> bool
    ensures { result ≡ is_picked picked.entry line }
{
    match picked {
        AcceptFilter::All => true,
        AcceptFilter::Heads(heads) => is_among(heads, line),
        AcceptFilter::UpTo(last) => line <= last,
    }
}

fn is_among(heads: &[usize], line: usize) -> bool
    ensures { result ≡ list_any (λ head. head == line) heads.now }
{
    heads.contains(&line)
}
