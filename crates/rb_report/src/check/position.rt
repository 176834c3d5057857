//! What is above the next line of a diff.

use crate::check::line_range::LineRange;
use crate::check::side::Side;
use crate::check::steps::is_delivered;

/// What is above the next line of a diff.
#[derive(Clone, Copy)]
pub(crate) struct DiffPosition {
    /// Whether the lines are shown step by step.
    pub grouped: bool,
    /// How many lines of the output are above.
    pub at: usize,
    /// Whether the last expected line above belongs to a delivery.
    pub expected: bool,
    /// Whether the last line of the output above belongs to a delivery.
    pub output: bool,
}

impl DiffPosition {
    ghost use Rattle.std.specs.Prelude.{◌≡◌, ◌+◌, ◌^◌, ◌<◌, ◌&&◌, length};
    ghost use Rattle.rb_report.specs.LineRanges.{in_range};
    ghost use Rattle.rb_report.specs.Steps.{start, is_below_delivery, counted, after_line, after_lines, is_delivered};

    /// Nothing is above.
    pub(crate) fn start(grouped: bool) -> DiffPosition
        ensures { result ≡ start grouped }
    {
        DiffPosition {
            grouped,
            at: 0,
            expected: false,
            output: false,
        }
    }

    /// Whether the last line above of a side belongs to a delivery.
    pub(crate) fn is_below_delivery(self, side: Side) -> bool
        ensures { result ≡ is_below_delivery side self }
    {
        match side {
            Side::Expected => self.expected,
            Side::Both | Side::Output => self.output,
        }
    }

    // Whether a line belongs to a delivery, if it is shown step by step.
    fn delivers(self, delivered: bool, line: &[u8]) -> bool
        ensures { result ≡ (self.grouped && is_delivered delivered line.now) }
    {
        self.grouped && is_delivered(delivered, line)
    }

    /// The position after a line of a side.
    pub(crate) fn after_line(self, side: Side, line: &[u8]) -> DiffPosition
        requires { self.at + counted side 1 < 2 ^ 64 }
        ensures { result ≡ after_line side self line.now }
    {
        let expected = self.delivers(self.expected, line);
        let output = self.delivers(self.output, line);
        match side {
            Side::Both => DiffPosition {
                grouped: self.grouped,
                at: self.at + 1,
                expected,
                output,
            },
            Side::Expected => DiffPosition {
                grouped: self.grouped,
                at: self.at,
                expected,
                output: self.output,
            },
            Side::Output => DiffPosition {
                grouped: self.grouped,
                at: self.at + 1,
                expected: self.expected,
                output,
            },
        }
    }

    /// The position after lines of a side.
    pub(crate) fn after(self, side: Side, lines: LineRange<'_>) -> DiffPosition
        requires { self.at + counted side (length (in_range lines)) < 2 ^ 64 }
        ensures { result ≡ after_lines side self (in_range lines.entry) }
    {
        let mut position = self;
        for i in 0..lines.len() {
            position = position.after_line(side, lines.line(i));
        }
        position
    }
}
