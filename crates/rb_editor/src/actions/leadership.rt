//! Who leads a cluster.

ghost use Rattle.std.specs.Prelude.{◌≡◌, ◌++◌, OnOk};
ghost use Rattle.rb_editor.specs.Hints.{NOBODY, is_leader, label_text, leadership, takes_over, with_node, with_nodes};

use crate::actions::bounded::BoundedCluster;
use rb_cluster::SharedNode;
use rb_message::Role;
use rb_node::State;
use rb_raftlog::RaftLog;
use rb_text::{Piece, add_pieces};
use rb_view::look::Nodes;
use std::alloc::AllocError;

/// The leader of the greatest term, or 0, with that term; and the greatest term of a node.
#[derive(Clone, Copy, Debug, PartialEq, Eq)]
pub(crate) struct Leadership {
    pub(crate) leader: u64,
    pub(crate) term: u64,
    pub(crate) last_term: u64,
}

/// A machine that knows who leads.
pub(crate) trait Leads: Nodes {
    /// Who leads; none if there are no nodes.
    fn leadership(&self) -> Option<Leadership>
        ensures { result ≡ leadership (Self.meaning self.now).nodes };
}

impl Leads for BoundedCluster {
    fn leadership(&self) -> Option<Leadership> {
        leadership_of(self.cluster.nodes())
    }
}

fn is_leader(role: Role) -> bool
    ensures { result ≡ is_leader role }
{
    matches!(role, Role::Leader)
}

// Whether a node leads in a greater term than the leader that is known, if one is.
fn takes_over<L: RaftLog>(known: Leadership, state: &State<L>) -> bool
    ensures { result ≡ takes_over known state.now }
{
    is_leader(state.role) && (known.leader == 0 || known.term < state.term)
}

// Looks at one node more.
fn with_node<L: RaftLog>(known: Leadership, state: &State<L>) -> Leadership
    ensures { result ≡ with_node known state.now }
{
    let last_term = known.last_term.max(state.term);
    if takes_over(known, state) {
        return Leadership {
            leader: state.id,
            term: state.term,
            last_term,
        };
    }
    Leadership {
        leader: known.leader,
        term: known.term,
        last_term,
    }
}

// Looks at some nodes.
fn with_nodes<L: RaftLog>(nodes: &[SharedNode<L>]) -> Leadership
    ensures { result ≡ with_nodes NOBODY nodes.now }
{
    let mut known = Leadership {
        leader: 0,
        term: 0,
        last_term: 0,
    };
    for shared in nodes {
        known = with_node(known, shared.node().status());
    }
    known
}

fn leadership_of<L: RaftLog>(nodes: &[SharedNode<L>]) -> Option<Leadership>
    ensures { result ≡ leadership nodes.now }
{
    if nodes.is_empty() {
        return None;
    }
    Some(with_nodes(nodes))
}

/// Adds who leads, and in which term.
///
/// # Errors
///
/// If memory was refused. A part may have been added then.
#[tactic(auto, unfolding(crate::specs::Hints::label_text))]
pub(crate) fn add_label(out: &mut Vec<u8>, known: Leadership) -> Result<(), AllocError>
    ensures { OnOk result (out.new.items ≡ out.old.items ++ label_text known) }
{
    if known.leader == 0 {
        return add_pieces(
            out,
            &[
                Piece::Bytes(b"no leader, term "),
                Piece::Number(known.last_term),
            ],
        );
    }
    add_pieces(
        out,
        &[
            Piece::Bytes(b"leader "),
            Piece::Number(known.leader),
            Piece::Bytes(b", term "),
            Piece::Number(known.term),
        ],
    )
}
