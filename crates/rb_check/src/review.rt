//! Asking about each output that differs.
//!
//! A review of a script is one definition, `Reviews.review_of`, of what was asked before, of its questions and of the lines that are read: it says what is
//! accepted and what is still to be asked. Each function here does a part of it.

ghost use Rattle.std.specs.Prelude.{◌≡◌, ◌++◌, ◌∷◌, [], ◌<◌, ℕ, List, IfErr, IfOk, Some, length, slice_get};
ghost use Rattle.rb_report.specs.declared.check.failure.Failure.TheVariants.{OutOfMemory};
ghost use Rattle.rb_check.specs.Asking.{AreAsked, AreReviewed, IsAsked, IsAskedAt, asked_of, subject_text};
ghost use Rattle.rb_check.specs.Reviews.{AreWithin, Hears, answered_one, next_review, question_text, questions_of, review_behind, review_of, review_so_far, reviewed_all, reviewed_one, reviewing, said_by, said_unasked};
ghost use Rattle.rb_check.specs.Shown.{Prints, PrintsIf, PrintsPart};
ghost use Rattle.rb_check.specs.Subjects.{AreFindings, plain_of};

use crate::answer::Answer;
use crate::check_request::CheckRequest;
use crate::checked_script::CheckedScript;
use crate::comment::put_comment;
use crate::person::{Person, ask};
use crate::question::{ReviewQuestion, question_text, questions_of};
use crate::report::Report;
use crate::report_sink::ReportSink;
use rb_files::PathError;
use rb_machine::Machine;
use rb_script_report::{AcceptFilter, Detail, ShowFault, ShownScript, View, put_alone};
use std::alloc::{AllocError, Global};
use std::mem;

/// What is still to be asked.
#[derive(Clone, Copy, PartialEq, Eq)]
pub(crate) enum Review {
    /// Each mismatch.
    Each,
    /// No more of this script: what follows in it is accepted.
    Rest,
    /// No more of this script: what follows in it is left.
    Skipped,
    /// Nothing more: what follows is left.
    Over,
}

/// A review, as far as it has come.
#[derive(Drop)]
pub(crate) struct Reviewer<P: Person> {
    alloc: Global,
    /// Who is asked.
    pub(crate) person: P,
    pub(crate) review: Review,
    // the lines of the heads whose outputs are accepted, in this script
    said: Vec<usize>,
}

impl<P: Person> Reviewer<P> {
    /// Nothing was asked yet.
    pub(crate) fn new(alloc: Global, person: P) -> Reviewer<P>
        ensures { result.review ≡ Review.Each }
    {
        Reviewer {
            alloc,
            person,
            review: Review::Each,
            said: Vec::new(alloc),
        }
    }

    // Begins a script.
    fn begin(&mut self)
        ensures said { self.new.said.items ≡ [] }
        ensures review { self.new.review ≡ review_behind self.old.review }
        ensures person { self.new.person ≡ self.old.person }
    {
        self.said = Vec::new(self.alloc);
        self.review = review_behind(self.review);
    }

    // Asks the question, and does what is answered.
    fn ask<W: ReportSink, E: ReportSink>(
        &mut self,
        question: ReviewQuestion,
        number: usize,
        count: usize,
        report: &mut Report<W, E>,
    ) -> Result<(), AllocError>
        ensures shown { IfOk result (λ _. (text : List ℕ) × IsAsked (question_text number count) text × Prints W.held report.old report.new text) }
        ensures part { IfErr result (λ _. PrintsPart W.held report.old report.new) }
        ensures heard { Hears P.is_known P.left self.old.person self.new.person (IfOk result (λ _. review_so_far P.left self.new ≡ answered_one (review_so_far P.left self.old) question)) }
    {
        let text = question_text(self.alloc, number, count)?;
        let answer = ask(&mut self.person, &text, report);
        self.review = take(&mut self.said, question.head, answer)?;
        Ok(())
    }

    // Accepts an output that isn't asked about, if accepting takes it.
    fn take_rest(&mut self, question: ReviewQuestion) -> Result<(), AllocError>
        ensures said { IfOk result (λ _. self.new.said.items ≡ self.old.said.items ++ said_unasked question) }
        ensures review { self.new.review ≡ self.old.review }
        ensures person { self.new.person ≡ self.old.person }
    {
        if question.is_taken {
            push(&mut self.said, question.head)?;
        }
        Ok(())
    }
}

// What is asked of the next script.
fn review_behind(review: Review) -> Review
    ensures { result ≡ review_behind review }
{
    match review {
        Review::Each | Review::Rest | Review::Skipped => Review::Each,
        Review::Over => Review::Over,
    }
}

/// The lines of the heads of the directives whose outputs are to be accepted, by what is answered.
pub(crate) fn reviewed<M: Machine, P: Person, W: ReportSink, E: ReportSink>(
    asked: &CheckRequest<'_>,
    subject: &CheckedScript<'_, M>,
    picked: AcceptFilter<'_>,
    reviewer: &mut Reviewer<P>,
    report: &mut Report<W, E>,
) -> Result<Vec<usize>, PathError>
    requires { AreFindings subject.now }
    ensures memory { IfErr result (λ error. error.failure ≡ OutOfMemory) }
    // What goes out are the questions, one after another, as far as they are asked.
    ensures shown { IfOk result (λ _. (text : List ℕ) × AreReviewed (plain_of subject.now) (questions_of asked.now picked.entry (plain_of subject.now)) reviewer.old.review reviewer.new.review text × Prints W.held report.old report.new text) }
    ensures part { IfErr result (λ _. PrintsPart W.held report.old report.new) }
    // If the person's lines are known, what is accepted is the review of the questions by them.
    ensures heard { Hears P.is_known P.left reviewer.old.person reviewer.new.person (IfOk result (λ said. reviewing said.items reviewer.new.review (P.left reviewer.new.person)
        ≡ review_of reviewer.old.review (P.left reviewer.old.person) (questions_of asked.now picked.entry (plain_of subject.now)))) }
{
    let questions = questions_of(reviewer.alloc, asked, picked, subject)?;
    reviewer.begin();
    go_over(subject, &questions, reviewer, report)?;
    let none = Vec::new(reviewer.alloc);
    Ok(mem::replace(&mut reviewer.said, none))
}

// Asks the questions, as far as they are still to be asked.
fn go_over<M: Machine, P: Person, W: ReportSink, E: ReportSink>(
    subject: &CheckedScript<'_, M>,
    questions: &[ReviewQuestion],
    reviewer: &mut Reviewer<P>,
    report: &mut Report<W, E>,
) -> Result<(), PathError>
    requires findings { AreFindings subject.now }
    requires within { AreWithin questions.now (length subject.now.session.now.script.blocks) }
    ensures memory { IfErr result (λ error. error.failure ≡ OutOfMemory) }
    ensures shown { IfOk result (λ _. (text : List ℕ) × AreReviewed (plain_of subject.now) questions.now reviewer.old.review reviewer.new.review text × Prints W.held report.old report.new text) }
    ensures part { IfErr result (λ _. PrintsPart W.held report.old report.new) }
    ensures heard { Hears P.is_known P.left reviewer.old.person reviewer.new.person (IfOk result (λ _. review_so_far P.left reviewer.new ≡ reviewed_all (review_so_far P.left reviewer.old) questions.now)) }
{
    for i in 0..questions.len() {
        let question = question_at(questions, i);
        review_one(subject, question, i + 1, questions.len(), reviewer, report)?;
    }
    Ok(())
}

// The question at an index, which counts from 0.
fn question_at(questions: &[ReviewQuestion], index: usize) -> ReviewQuestion
    requires { index < length questions.now }
    ensures { slice_get questions.now index ≡ Some result }
{
    questions[index]
}

// Asks the question, if it is still to be asked.
fn review_one<M: Machine, P: Person, W: ReportSink, E: ReportSink>(
    subject: &CheckedScript<'_, M>,
    question: ReviewQuestion,
    number: usize,
    count: usize,
    reviewer: &mut Reviewer<P>,
    report: &mut Report<W, E>,
) -> Result<(), PathError>
    requires findings { AreFindings subject.now }
    requires within { question.index < length subject.now.session.now.script.blocks }
    ensures memory { IfErr result (λ error. error.failure ≡ OutOfMemory) }
    ensures shown { IfOk result (λ _. (text : List ℕ) × AreAsked (plain_of subject.now) count number (asked_of reviewer.old.review question) text × Prints W.held report.old report.new text) }
    ensures part { IfErr result (λ _. PrintsPart W.held report.old report.new) }
    // Nothing begins a review again.
    ensures each { reviewer.new.review ≡ Review.Each → reviewer.old.review ≡ Review.Each }
    ensures over { reviewer.old.review ≡ Review.Over → reviewer.new.review ≡ Review.Over }
    ensures heard { Hears P.is_known P.left reviewer.old.person reviewer.new.person (IfOk result (λ _. review_so_far P.left reviewer.new ≡ reviewed_one (review_so_far P.left reviewer.old) question)) }
{
    match reviewer.review {
        Review::Each => ask_about(subject, question, number, count, reviewer, report),
        Review::Rest => Ok(reviewer.take_rest(question)?),
        Review::Skipped => Ok(()),
        Review::Over => Ok(()),
    }
}

// Shows what the question is about, and asks it.
fn ask_about<M: Machine, P: Person, W: ReportSink, E: ReportSink>(
    subject: &CheckedScript<'_, M>,
    question: ReviewQuestion,
    number: usize,
    count: usize,
    reviewer: &mut Reviewer<P>,
    report: &mut Report<W, E>,
) -> Result<(), PathError>
    requires findings { AreFindings subject.now }
    requires within { question.index < length subject.now.session.now.script.blocks }
    ensures memory { IfErr result (λ error. error.failure ≡ OutOfMemory) }
    ensures shown { IfOk result (λ _. (text : List ℕ) × IsAskedAt (plain_of subject.now) count number question text × Prints W.held report.old report.new text) }
    ensures part { IfErr result (λ _. PrintsPart W.held report.old report.new) }
    ensures heard { Hears P.is_known P.left reviewer.old.person reviewer.new.person (IfOk result (λ _. review_so_far P.left reviewer.new ≡ answered_one (review_so_far P.left reviewer.old) question)) }
{
    show(reviewer.alloc, subject, question, report)?;
    Ok(reviewer.ask(question, number, count, report)?)
}

fn push(said: &mut Vec<usize>, head: usize) -> Result<(), AllocError>
    ensures { IfOk result (λ _. said.new.items ≡ said.old.items ++ head ∷ []) }
{
    said.push(head)?;
    Ok(())
}

// Does what is answered for the head, and gives what is still to be asked.
fn take(said: &mut Vec<usize>, head: usize, answer: Answer) -> Result<Review, AllocError>
    ensures next { IfOk result (λ review. review ≡ next_review answer) }
    ensures said { IfOk result (λ _. said.new.items ≡ said.old.items ++ said_by answer head) }
{
    match answer {
        Answer::Yes => {
            push(said, head)?;
            Ok(Review::Each)
        }
        Answer::No => Ok(Review::Each),
        Answer::All => {
            push(said, head)?;
            Ok(Review::Rest)
        }
        Answer::Skip => Ok(Review::Skipped),
        Answer::Quit => Ok(Review::Over),
    }
}

// Shows what is asked about, and the comment above it.
fn show<M: Machine, W: ReportSink, E: ReportSink>(
    alloc: Global,
    subject: &CheckedScript<'_, M>,
    question: ReviewQuestion,
    report: &mut Report<W, E>,
) -> Result<(), PathError>
    requires findings { AreFindings subject.now }
    requires within { question.index < length subject.now.session.now.script.blocks }
    ensures memory { IfErr result (λ error. error.failure ≡ OutOfMemory) }
    ensures shown { PrintsIf result W.held report.old report.new (subject_text (plain_of subject.now) question) }
{
    if !report.is_open() {
        return Ok(());
    }
    let view = View {
        path: subject.path.as_bytes(),
        colors: subject.colors,
        shown: Detail::Differing,
    };
    let sink = &mut report.output;
    let Ok(()) = put_comment(sink, &subject.layout.text, question.head) else {
        return report.showed(Err(ShowFault::Writing));
    };
    let run = ShownScript {
        session: subject.session,
        layout: subject.layout,
        whys: subject.whys,
    };
    let shown = put_alone(alloc, sink, &run, view, question.index);
    report.showed(shown)
}
