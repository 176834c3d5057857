//! Writing what a session answers.

ghost use Rattle.std.specs.Prelude.{IsOk, OnOk};
ghost use Rattle.rb_script.specs.Writes.{Writes};
ghost use Rattle.rb_replay.specs.Run.{output_at};
ghost use Rattle.rb_bench.specs.Responses.{fault_text, refused, done, output_text, shown};
ghost use Rattle.rb_bench.specs.Handed.{IsHandedOn};
ghost use Rattle.rb_bench.specs.Replies.{reply_text};

use crate::names::{edit_fault_name, script_fault_name};
use crate::outlet::Outlet;
use crate::reply::Reply;
use crate::starting::BenchSession;
use rb_replay::Changed;
use rb_report::check::fault_line;
use rb_script::{Lines, ScriptFault, Sink, WriteFault};
use rb_text::{Piece, put_pieces};

fn put_refused<S: Sink>(sink: &mut S, name: &[u8]) -> Result<(), WriteFault>
    ensures wrote { Writes result (S.held sink.old) (S.held sink.new) (refused name.now) }
    ensures all { S.takes_all sink.old → IsOk result × S.takes_all sink.new }
{
    put_pieces(
        sink,
        &[
            Piece::Bytes(b"refused "),
            Piece::Bytes(name),
            Piece::Bytes(b"\n"),
        ],
    )
}

// The name of a fault, and its line, if it has one.
fn put_bad_block<S: Sink>(sink: &mut S, fault: ScriptFault) -> Result<(), WriteFault>
    ensures wrote { Writes result (S.held sink.old) (S.held sink.new) (refused (fault_text fault)) }
    ensures all { S.takes_all sink.old → IsOk result × S.takes_all sink.new }
{
    let name = script_fault_name(fault).as_bytes();
    match fault_line(fault) {
        Some(line) => put_pieces(
            sink,
            &[
                Piece::Bytes(b"refused "),
                Piece::Bytes(name),
                Piece::Bytes(b" at line "),
                Piece::Number(line as u64),
                Piece::Bytes(b"\n"),
            ],
        ),
        None => put_refused(sink, name),
    }
}

fn put_done<S: Sink>(sink: &mut S, changed: Changed) -> Result<(), WriteFault>
    ensures wrote { Writes result (S.held sink.old) (S.held sink.new) (done changed) }
    ensures all { S.takes_all sink.old → IsOk result × S.takes_all sink.new }
{
    put_pieces(
        sink,
        &[
            Piece::Bytes(b"done executed="),
            Piece::Number(changed.executed),
            Piece::Bytes(b" mismatches="),
            Piece::Number(changed.mismatches as u64),
            Piece::Bytes(b"\n"),
        ],
    )
}

fn put_output<S: Sink>(sink: &mut S, output: &Lines) -> Result<(), WriteFault>
    ensures wrote { Writes result (S.held sink.old) (S.held sink.new) (output_text output.now) }
    ensures all { S.takes_all sink.old → IsOk result × S.takes_all sink.new }
{
    put_pieces(
        sink,
        &[
            Piece::Bytes(b"output "),
            Piece::Number(output.len() as u64),
            Piece::Bytes(b"\n"),
            Piece::Bytes(output.text()),
        ],
    )
}

// The output at a place, or that there is none.
fn put_shown<S: Sink>(sink: &mut S, session: &BenchSession, place: usize) -> Result<(), WriteFault>
    ensures wrote { Writes result (S.held sink.old) (S.held sink.new) (shown (output_at session.now.script place)) }
    ensures all { S.takes_all sink.old → IsOk result × S.takes_all sink.new }
{
    match session.output(place) {
        Some(output) => put_output(sink, output),
        None => put_refused(sink, b"NoSuchPlace"),
    }
}

fn put_reply<S: Sink>(sink: &mut S, session: &BenchSession, reply: Reply) -> Result<(), WriteFault>
    ensures wrote { Writes result (S.held sink.old) (S.held sink.new) (reply_text session.now reply) }
    ensures all { S.takes_all sink.old → IsOk result × S.takes_all sink.new }
{
    match reply {
        Reply::Nothing => Ok(()),
        Reply::BadCommand => put_refused(sink, b"BadCommand"),
        Reply::BadBlock(fault) => put_bad_block(sink, fault),
        Reply::BadEdit(fault) => put_refused(sink, edit_fault_name(fault).as_bytes()),
        Reply::LineTooLong => put_refused(sink, b"LineTooLong"),
        Reply::CutOff => put_refused(sink, b"CutOff"),
        Reply::Done(changed) => put_done(sink, changed),
        Reply::Output(place) => put_shown(sink, session, place),
        Reply::Report => session.write_report(sink),
        Reply::Script => session.write_script(sink),
        Reply::Rewrite => session.write_rewritten(sink),
    }
}

/// Writes an answer, and hands it on. If there is none the writer isn't touched.
pub(crate) fn send<W: Outlet>(
    writer: &mut W,
    session: &BenchSession,
    reply: Reply,
) -> Result<(), WriteFault>
    ensures wrote { Writes result (W.held writer.old) (W.held writer.new) (reply_text session.now reply) }
    ensures handed { OnOk result (IsHandedOn (W.handed writer.old) (W.held writer.old) → IsHandedOn (W.handed writer.new) (W.held writer.new)) }
    ensures all { W.takes_all writer.old → IsOk result × W.takes_all writer.new }
{
    if reply == Reply::Nothing {
        return Ok(());
    }
    match put_reply(writer, session, reply) {
        Ok(()) => writer.flush(),
        Err(fault) => Err(fault),
    }
}
