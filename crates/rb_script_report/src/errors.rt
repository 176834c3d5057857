//! Outputs that are errors, and whether a comment expects them.
//!
//! An error is one line that begins with `error: `, and no other output begins so. A test that means it says so in a comment above the
//! directive, with nothing but comments and empty lines between them.

ghost use Rattle.std.specs.Prelude.{◌≡◌, ◌≤◌, if◌then◌else◌, length};
ghost use Rattle.std.specs.List.{list_any};
ghost use Rattle.rb_replay.specs.Run.{outputs};
ghost use Rattle.rb_script_report.specs.Errors.{begins_error, first_line, is_error, is_mark, marked, says_error, is_unexpected, error_count};

use crate::answers::{number_at, output_at};
use rb_machine::Machine;
use rb_replay::Session;
use rb_script::{Lines, is_lead, trim_blanks};

const MARK: &[u8] = b"# expects an error";

const ERROR: &[u8] = b"error: ";

fn begins_error(line: &[u8]) -> bool
    ensures { result ≡ begins_error line.now }
{
    &line[..line.len().min(7)] == ERROR
}

/// The first line of an output. If there is none, it is empty.
pub fn first_line(output: &Lines) -> &[u8]
    ensures { result.now ≡ first_line output.now }
{
    if output.is_empty() {
        return b"";
    }
    output.line(0)
}

/// Whether the output is an error.
pub fn is_error(output: &Lines) -> bool
    ensures { result ≡ is_error output.now }
{
    begins_error(first_line(output))
}

fn is_mark(line: &[u8]) -> bool
    ensures { result ≡ is_mark line.now }
{
    trim_blanks(line) == MARK
}

// Whether the comment is among the comments and empty lines above this line.
fn says_error(text: &Lines, line: usize) -> bool
    ensures { result ≡ says_error text.now line }
{
    let mut above = line.saturating_sub(1).min(text.len());
    while above > 0 {
        let next = text.line(above - 1);
        if !is_lead(next) {
            return false;
        }
        if is_mark(next) {
            return true;
        }
        above -= 1;
    }
    false
}

/// Whether the output is an error that no comment above the head on this line expects. `text` is the script's lines.
pub fn is_unexpected(text: &Lines, line: usize, output: &Lines) -> bool
    ensures { result ≡ is_unexpected text.now line output.now }
{
    is_error(output) && !says_error(text, line)
}

/// Whether any output is an error.
pub fn has_errors<M: Machine>(session: &Session<M>) -> bool
    ensures { result ≡ list_any is_error (outputs session.now.script) }
{
    for i in 0..session.len() {
        if is_error(output_at(session, i)) {
            return true;
        }
    }
    false
}

fn one_if(test: bool) -> usize
    ensures value { result ≡ (if test then 1 else 0) }
    ensures most { result ≤ 1 }
{
    if test { 1 } else { 0 }
}

/// How many outputs are errors that no comment expects.
pub(crate) fn count_errors<M: Machine>(session: &Session<M>, heads: &[usize], text: &Lines) -> usize
    requires { length heads.now ≡ length session.now.script.blocks }
    ensures { result ≡ error_count text.now heads.now (outputs session.now.script) }
{
    let mut count = 0;
    for i in 0..session.len() {
        let output = output_at(session, i);
        count += one_if(is_unexpected(text, number_at(heads, i), output));
    }
    count
}
