//! The reasons of an output, below a message's last line: why the message had no effect, or which entries give way to its own.

ghost use Rattle.std.specs.Prelude.{◌≡◌, ◌++◌, [], IfOk, OnOk, None, false};
ghost use Rattle.rb_texts.specs.declared.reason.Reason.{Reason};
ghost use Rattle.rb_report.specs.Whys.{reasons_in};
ghost use Rattle.rb_script_report.specs.Whys.{last_reason, all_reasons, below_line, below_reason, why_at};

use rb_machine::Observer;
use rb_node::Node;
use rb_raftlog::RaftLog;
use rb_report::check::Why;
use rb_script::Lines;
use rb_texts::{Item, Reason, is_shown, put_reason, reason_of};
use rb_vocab::Level;
use std::alloc::{AllocError, Global};

/// The reasons below the lines that a directive prints, collected while it runs: why a message had no effect, or which entries give way to its
/// own. A line has at most one reason, the first. A reason that comes before any line belongs to the first line, which is `ok` then.
#[derive(Drop)]
pub struct LineReasons {
    pub level: Level,
    /// The reasons of the lines before the last; an empty one means none.
    pub above: Lines,
    /// Whether there is a line, or a reason.
    pub has_begun: bool,
    pub last: Option<Reason>,
}

// Adds the reason below a line, or an empty one.
fn push_last(reasons: &mut Lines, level: Level, reason: &Option<Reason>) -> Result<(), AllocError>
    ensures { OnOk result (reasons.new ≡ reasons.old ++ last_reason level reason.now) }
{
    match reason {
        Some(reason) => put_reason(reasons, level, reason),
        None => {
            reasons.push(b"")?;
            Ok(())
        }
    }
}

impl LineReasons {
    /// No lines.
    pub fn new(alloc: Global) -> LineReasons
        ensures above { result.above ≡ [] }
        ensures has_begun { result.has_begun ≡ false }
        ensures last { result.last ≡ None }
    {
        LineReasons {
            level: Level::Debug,
            above: Lines::new(alloc),
            has_begun: false,
            last: None,
        }
    }

    /// The reason below each line, in order; an empty one means none.
    pub fn all(self) -> Result<Lines, AllocError>
        ensures { IfOk result (λ reasons. reasons ≡ all_reasons self) }
    {
        let LineReasons {
            level,
            above,
            has_begun,
            last,
        } = self;
        let mut reasons = above;
        if has_begun {
            push_last(&mut reasons, level, &last)?;
        }
        Ok(reasons)
    }

    // A line is printed.
    fn add_line(&mut self) -> Result<(), AllocError>
        ensures { OnOk result (self.new ≡ below_line self.old) }
    {
        if self.has_begun {
            push_last(&mut self.above, self.level, &self.last)?;
        }
        self.has_begun = true;
        self.last = None;
        Ok(())
    }

    // A reason was given.
    fn add_reason(&mut self, reason: Reason)
        ensures { self.new ≡ below_reason self.old reason }
    {
        self.has_begun = true;
        if self.last.is_none() {
            self.last = Some(reason);
        }
    }
}

impl<L: RaftLog> Observer<L> for LineReasons {
    ghost use Rattle.rb_vocab.specs.declared.level.Level.{Level};
    ghost use Rattle.rb_script_report.specs.declared.reasons.LineReasons.{LineReasons};
    ghost use Rattle.rb_machine.specs.Observations.{passing};
    ghost use Rattle.rb_script_report.specs.Whys.{at_level, with_item};

    ghost Meaning = { LineReasons };

    ghost meaning = { λ r. r };

    ghost starting = { at_level };

    ghost taking = { with_item };

    ghost settling = { passing };

    fn start(&mut self, level: Level) {
        self.level = level;
    }

    fn observe(&mut self, item: &Item<'_>) -> Result<(), AllocError> {
        if is_shown(self.level, item) {
            self.add_line()?;
        }
        if let Some(reason) = reason_of(item)? {
            self.add_reason(reason);
        }
        Ok(())
    }

    fn settle(&mut self, _id: u64, _node: &Node<L>) -> Result<(), AllocError> {
        Ok(())
    }
}

/// The reasons of the directive at an index, which counts from 0; none if there are fewer.
pub fn why_at(whys: &[Lines], index: usize) -> Why<'_>
    ensures { reasons_in result ≡ why_at whys.now index }
{
    match whys.get(index) {
        Some(reasons) => Why::Given(reasons),
        None => Why::Unasked,
    }
}
