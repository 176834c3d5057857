//! Holds a session over plain logs on the script on standard input, takes one directive out and puts it back, and writes the report: tests/cases
//! compares it with the program's. The status is 1 if there is none.
#![tactic(auto)]

use rb_cluster::{Cluster, Meter};
use rb_machine::Machine;
use rb_raftlog::PlainLog;
use rb_replay::Session;
use rb_script::{Edit, MAX_SCRIPT, Through};
use rb_text::{FailFast, ReadSource, read_up_to};
use std::io;
use std::io::{BufWriter, Write};
use std::mem::forget;
use std::process::ExitCode;

/// Whether the report was written.
fn is_told<M: Machine, R: Print + AllocGlobal>(rt: &R, session: &Session<M>) -> bool {
    let Ok(writer) = BufWriter::new(rt.alloc(), FailFast(Through(io::writer(rt)))) else {
        return false;
    };
    let mut out = Through(writer);
    session.write_report(&mut out).is_ok() && out.0.flush().is_ok()
}

/// How many directives stand from one kept cluster to the next.
const SPACING: u64 = 4;

fn is_edited<M: Machine<Meter = Meter>>(session: &mut Session<M>, edit: &Edit) -> bool {
    session.edit(edit, &mut Meter::new()).is_ok()
}

/// Whether the directive in the middle, if there is one, was taken out and put back: all that the session holds is then as it was.
fn is_put_back<M: Machine<Meter = Meter>>(session: &mut Session<M>) -> bool {
    let place = session.len() / 2 + 1;
    let Some(block) = session.block(place) else {
        return true;
    };
    let Ok(copy) = block.try_copy() else {
        return false;
    };
    is_edited(session, &Edit::Remove(place)) && is_edited(session, &Edit::Insert(place, copy))
}

/// Whether the script ran, and its report was written. What the run held isn't given back, since the program ends here.
fn is_run<M: Machine<Meter = Meter>, R: Print + AllocGlobal>(rt: &R, script: &[u8]) -> bool {
    let mut meter = Meter::new();
    match Session::<M>::start(rt.alloc(), script, SPACING, &mut meter) {
        Ok(session) => {
            let mut session = session;
            let answer = is_put_back(&mut session) && is_told(rt, &session);
            forget(session);
            answer
        }
        Err(_) => false,
    }
}

fn main(rt: HostRuntime) -> ExitCode {
    let Ok(script) = read_up_to(rt.alloc(), &mut ReadSource(rt.reader()), MAX_SCRIPT + 1) else {
        return ExitCode::FAILURE;
    };
    if is_run::<Cluster<PlainLog>, HostRuntime>(&rt, &script) {
        ExitCode::SUCCESS
    } else {
        ExitCode::FAILURE
    }
}
