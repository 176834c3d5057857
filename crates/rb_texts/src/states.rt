//! Nodes, their logs, and a leader's views.
//!
//! A node shows its role, its hard state, its leader and its indexes (Ongaro's thesis, section 3.3). A leader's view shows its state and
//! its indexes (etcd raft documentation, "Progress").

ghost use Rattle.std.specs.Prelude.{◌≡◌, ◌++◌, OnOk};
ghost use Rattle.rb_texts.specs.Items.{plain_node};
ghost use Rattle.rb_texts.specs.States.{role_text, node_text, hard_state_text, log_text, progress_state_text, under_way_text, progress_text};

use crate::item::{LogLine, NodeLine};
use crate::piece::{LinePiece, add_bytes, add_field, add_pieces, shown_if};
use rb_message::{HardState, Role};
use rb_script::LineText;
use rb_tracker::{Progress, ProgressState};
use std::alloc::AllocError;

/// The name of a role.
pub fn role_name(role: Role) -> &'static [u8]
    ensures { result.now ≡ role_text role }
{
    match role {
        Role::Follower => b"follower",
        Role::Precandidate => b"precandidate",
        Role::Candidate => b"candidate",
        Role::Leader => b"leader",
    }
}

pub(crate) fn add_node(line: &mut LineText, node: &NodeLine<'_>) -> Result<(), AllocError>
    ensures { OnOk result (line.new ≡ line.old ++ node_text (plain_node node.now)) }
{
    let pieces = [
        LinePiece::Number(node.id),
        LinePiece::Bytes(b" "),
        LinePiece::Bytes(role_name(node.role)),
        LinePiece::Field(b" term=", node.term),
        LinePiece::Field(b" vote=", node.vote),
        LinePiece::Field(b" lead=", node.lead),
        LinePiece::Field(b" commit=", node.commit),
        LinePiece::Field(b" applied=", node.applied),
        LinePiece::Field(b" content=", node.content_len as u64),
        LinePiece::Bytes(b":"),
        LinePiece::Quoted(node.content_end),
    ];
    add_pieces(line, &pieces)
}

pub(crate) fn add_hard_state(line: &mut LineText, hard: &HardState) -> Result<(), AllocError>
    ensures { OnOk result (line.new ≡ line.old ++ hard_state_text hard.now) }
{
    add_field(line, b"  hard term=", hard.term)?;
    add_field(line, b" vote=", hard.vote)?;
    add_field(line, b" commit=", hard.commit)
}

pub(crate) fn add_log(line: &mut LineText, log: &LogLine) -> Result<(), AllocError>
    ensures { OnOk result (line.new ≡ line.old ++ log_text log.now) }
{
    let pieces = [
        LinePiece::Bytes(b"base="),
        LinePiece::Place(log.base_term, log.base),
        LinePiece::Field(b" durable=", log.durable),
        LinePiece::Field(b" commit=", log.commit),
        LinePiece::Field(b" applied=", log.applied),
    ];
    add_pieces(line, &pieces)
}

/// The name of a view's state.
pub fn progress_state_name(state: ProgressState) -> &'static [u8]
    ensures { result.now ≡ progress_state_text state }
{
    match state {
        ProgressState::Probe => b"probe",
        ProgressState::Replicate => b"replicate",
        ProgressState::Snapshot => b"snapshot",
    }
}

// Adds what a view has in its state alone.
fn add_under_way(line: &mut LineText, view: &Progress) -> Result<(), AllocError>
    ensures { OnOk result (line.new ≡ line.old ++ under_way_text view.now.state view.now.waiting view.now.pending) }
{
    match view.state() {
        ProgressState::Probe => add_bytes(line, shown_if(view.waiting(), b" waiting")),
        ProgressState::Replicate => Ok(()),
        ProgressState::Snapshot => add_pieces(
            line,
            &[LinePiece::Field(b" snapshot=", view.pending())],
        ),
    }
}

pub(crate) fn add_progress(line: &mut LineText, id: u64, view: &Progress) -> Result<(), AllocError>
    ensures { OnOk result (line.new ≡ line.old ++ progress_text id view.now) }
{
    let pieces = [
        LinePiece::Number(id),
        LinePiece::Bytes(b" "),
        LinePiece::Bytes(progress_state_name(view.state())),
        LinePiece::Bytes(b" match="),
        LinePiece::Number(view.matched()),
        LinePiece::Bytes(b" next="),
        LinePiece::Number(view.next()),
        LinePiece::Bytes(b" inflight="),
        LinePiece::Number(view.window().len() as u64),
    ];
    add_pieces(line, &pieces)?;
    add_under_way(line, view)?;
    add_bytes(line, shown_if(!view.active(), b" inactive"))
}
