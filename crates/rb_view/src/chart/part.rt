//! The directives of a script that a picture shows.

ghost use Rattle.std.specs.Prelude.{◌≡◌};
ghost use Rattle.rb_view.specs.Drawn.{is_after, is_before, phase_at};

/// The directives from the one at a line on, and up to the one at a line.
#[derive(Clone, Copy)]
pub struct ChartPart {
    pub from: Option<u64>,
    pub until: Option<u64>,
}

/// The place of a directive.
#[derive(Clone, Copy)]
pub enum ChartPhase {
    /// Above the drawn part.
    Above,
    Within,
    Below,
}

fn is_before(from: Option<u64>, line: u64) -> bool
    ensures { result ≡ is_before from line }
{
    match from {
        Some(first) => line < first,
        None => false,
    }
}

fn is_after(until: Option<u64>, line: u64) -> bool
    ensures { result ≡ is_after until line }
{
    match until {
        Some(last) => last < line,
        None => false,
    }
}

impl ChartPart {
    /// The place of the directive whose head is at a line.
    pub(crate) fn phase_at(self, line: u64) -> ChartPhase
        ensures { result ≡ phase_at self line }
    {
        if is_after(self.until, line) {
            ChartPhase::Below
        } else if is_before(self.from, line) {
            ChartPhase::Above
        } else {
            ChartPhase::Within
        }
    }
}
