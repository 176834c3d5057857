//! Responding to commands.

ghost use Rattle.std.specs.Prelude.{◌≡◌, [], Bool, List, None, IfOk};
ghost use Rattle.rb_script.specs.Lines.{Line};
ghost use Rattle.rb_script.specs.Reading.{Gives};
ghost use Rattle.rb_script.specs.declared.edit.Edit.{Edit};
ghost use Rattle.rb_bench.specs.Responses.{AnswersEdit, AnswersGiven, AnswersCommand, edit_of};
ghost use Rattle.rb_bench.specs.Hearing.{IsCommand, IsGiven, Hears};
ghost use Rattle.rb_bench.specs.Replies.{reply_text};
ghost use Rattle.rb_bench.specs.Turns.{IsTurn};

use crate::command::{Command, Purpose};
use crate::given_lines::GivenLines;
use crate::hear::HeardCommand;
use crate::reply::Reply;
use crate::running::{Mode, status};
use crate::starting::BenchSession;
use rb_cluster::Meter;
use rb_report::check::Status;
use rb_script::{Block, Edit, EditFault, Lines, MAX_SCRIPT, ScriptFault};
use std::alloc::Global;

/// The edit that a command asks for with its lines.
fn edit_of(alloc: Global, purpose: Purpose, place: usize, lines: Lines) -> Result<Edit, ScriptFault>
    ensures { Gives {X = Edit} {Y = Edit} (λ e. e) result (edit_of purpose place lines) }
{
    match purpose {
        Purpose::Insert => Ok(Edit::Insert(place, Block::read(alloc, lines.text())?)),
        Purpose::Replace => Ok(Edit::Replace(place, Block::read(alloc, lines.text())?)),
        Purpose::Expect => Ok(Edit::Expect(place, lines)),
    }
}

/// Makes an edit, each with a meter of its own.
fn make(session: &mut BenchSession, edit: &Edit) -> Reply
    ensures { (no_memory : Bool) × AnswersEdit session.old edit.now no_memory (reply_text session.new result) session.new }
{
    let mut meter = Meter::new();
    match session.edit(edit, &mut meter) {
        Ok(changed) => Reply::Done(changed),
        Err(fault) => Reply::BadEdit(fault),
    }
}

/// Makes the edit that a command asks for with its lines.
fn make_given(
    alloc: Global,
    session: &mut BenchSession,
    purpose: Purpose,
    place: usize,
    given: GivenLines,
) -> Reply
    ensures { (ls : List Line) → IsGiven given ls
        → (no_memory : Bool) × AnswersGiven session.old purpose place ls no_memory (reply_text session.new result) session.new }
{
    if given.text_len > MAX_SCRIPT {
        return Reply::BadEdit(EditFault::TooLong);
    }
    if given.has_no_memory {
        return Reply::BadEdit(EditFault::OutOfMemory);
    }
    match edit_of(alloc, purpose, place, given.lines) {
        Ok(edit) => make(session, &edit),
        Err(fault) => Reply::BadBlock(fault),
    }
}

/// Responds to a command with its lines.
fn respond(alloc: Global, session: &mut BenchSession, command: Command, given: GivenLines) -> Reply
    ensures { (ls : List Line) → IsGiven given ls
        → (no_memory : Bool) × AnswersCommand session.old command ls no_memory (reply_text session.new result) session.new }
{
    match command {
        Command::Blank => Reply::Nothing,
        Command::Bad => Reply::BadCommand,
        Command::Given(purpose, place, _) => make_given(alloc, session, purpose, place, given),
        Command::Remove(place) => make(session, &Edit::Remove(place)),
        Command::Accept => make(session, &Edit::Accept),
        Command::Show(place) => Reply::Output(place),
        Command::Report => Reply::Report,
        Command::Script => Reply::Script,
        Command::Rewrite => Reply::Rewrite,
    }
}

/// Responds to the input, and returns the status if it ends the session.
pub(crate) fn reply_to(
    alloc: Global,
    session: &mut BenchSession,
    heard: HeardCommand,
) -> (Reply, Option<Status>)
    ensures going { result.1 ≡ None → IsCommand heard }
    ensures serve_one { (ls rest : List Line) → Hears heard ls rest
        → IsTurn session.old ls rest (reply_text session.new result.0) session.new result.1 }
{
    match heard {
        HeardCommand::Command(command, given) => (respond(alloc, session, command, given), None),
        HeardCommand::End => (Reply::Nothing, Some(status(session, Mode::Run))),
        HeardCommand::LineTooLong => (Reply::LineTooLong, Some(Status::Failed)),
        HeardCommand::CutOff => (Reply::CutOff, Some(Status::Failed)),
    }
}
