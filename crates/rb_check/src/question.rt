//! What is asked about in a review.

ghost use Rattle.std.specs.Prelude.{◌≡◌, ◌++◌, IfOk};
ghost use Rattle.rb_check.specs.Reviews.{question_of, question_text, questions_of};
ghost use Rattle.rb_check.specs.Subjects.{AreFindings, plain_of, plain_ran};

use crate::check_request::CheckRequest;
use crate::checked_script::CheckedScript;
use crate::ran_directive::{RanDirective, directive_at};
use rb_machine::Machine;
use rb_script::Lines;
use rb_script_report::{AcceptFilter, is_picked, is_same, is_unexpected};
use rb_text::{Piece, add_pieces};
use std::alloc::{AllocError, Global};

/// A directive whose output is not the expected one.
#[derive(Clone, Copy)]
pub(crate) struct ReviewQuestion {
    /// Its index, which counts from 0.
    pub(crate) index: usize,
    /// The line of its head.
    pub(crate) head: usize,
    /// Whether its output is accepted unasked, once the rest of the script is.
    pub(crate) is_taken: bool,
}

/// The questions of a script: the directives that are picked, and whose output is not the expected one.
pub(crate) fn questions_of<M: Machine>(
    alloc: Global,
    asked: &CheckRequest<'_>,
    picked: AcceptFilter<'_>,
    subject: &CheckedScript<'_, M>,
) -> Result<Vec<ReviewQuestion>, AllocError>
    requires { AreFindings subject.now }
    ensures { IfOk result (λ made. made.items ≡ questions_of asked.now picked.entry (plain_of subject.now)) }
{
    let mut questions = Vec::new(alloc);
    let lines = &subject.layout.text;
    for i in 0..subject.session.len() {
        let ran = directive_at(subject, i);
        add_question(&mut questions, asked.accepts_errors, picked, lines, ran)?;
    }
    Ok(questions)
}

// Adds the question about the directive; nothing, where its output is the expected one, or it isn't picked.
fn add_question(
    questions: &mut Vec<ReviewQuestion>,
    accepts_errors: bool,
    picked: AcceptFilter<'_>,
    lines: &Lines,
    ran: RanDirective<'_>,
) -> Result<(), AllocError>
    ensures { IfOk result (λ _. questions.new.items ≡ questions.old.items ++ question_of accepts_errors picked.entry lines.now (plain_ran ran.entry)) }
{
    let head = ran.place.line;
    if is_same(ran.block.expected(), ran.output) || !is_picked(picked, head) {
        return Ok(());
    }
    questions.push(ReviewQuestion {
        index: ran.index,
        head,
        is_taken: accepts_errors || !is_unexpected(lines, head, ran.output),
    })?;
    Ok(())
}

/// The text of a question: its number, and how many there are.
pub(crate) fn question_text(
    alloc: Global,
    number: usize,
    count: usize,
) -> Result<Vec<u8>, AllocError>
    ensures { IfOk result (λ made. made.items ≡ question_text number count) }
{
    let mut text = Vec::new(alloc);
    add_pieces(
        &mut text,
        &[
            Piece::Number(number as u64),
            Piece::Bytes(b" of "),
            Piece::Number(count as u64),
            Piece::Bytes(b": accept this output? [y,n,a,s,q,?] "),
        ],
    )?;
    Ok(text)
}
