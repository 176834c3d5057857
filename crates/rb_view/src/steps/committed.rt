//! Whether what nodes know to be committed stays.
//!
//! It does as long as no node restarts, and the indexes of each node are in order. They always are: that is tested, since it costs little. Where
//! it might not stay, logs are compared from their first entry on.

ghost use Rattle.std.specs.Prelude.{◌≡◌};
ghost use Rattle.std.specs.List.{list_all};
ghost use Rattle.rb_script.specs.Reading.{directive_of};
ghost use Rattle.rb_script.specs.Tokens.{plain};
ghost use Rattle.rb_view.specs.Committed.{is_restart, is_sound, keeps_commits, restarts};

use rb_cluster::{Cluster, SharedNode};
use rb_directive::{Request, request};
use rb_node::State;
use rb_raftlog::RaftLog;
use rb_script::{Block, DirectiveRef};

fn is_restart(request: &Request<'_>) -> bool
    ensures { result ≡ is_restart request.now }
{
    matches!(request, Request::Restart(_))
}

// Whether a directive restarts nodes.
#[tactic(auto, unfolding(crate::specs::Committed::restarts))]
fn restarts(directive: &DirectiveRef<'_>) -> bool
    ensures { result ≡ restarts (plain directive.now) }
{
    match &request(directive) {
        Ok(asked) => is_restart(&asked.request),
        Err(_) => false,
    }
}

// Whether the indexes of a node are in order.
fn is_sound<L: RaftLog>(state: &State<L>) -> bool
    ensures { result ≡ is_sound state.now }
{
    let base = state.log.first_index() - 1;
    let durable = state.log.durable();
    let last = state.log.last_index();
    base <= state.applied
        && state.applied <= durable
        && durable <= last
        && state.applied <= state.commit
        && state.commit <= last
}

fn are_sound<L: RaftLog>(nodes: &[SharedNode<L>]) -> bool
    ensures { result ≡ list_all is_sound nodes.now }
{
    nodes.iter().all(|shared| is_sound(shared.node().status()))
}

/// Whether what the nodes of a cluster know to be committed stays, whatever the directive of a block does.
pub(crate) fn keeps_commits<L: RaftLog>(cluster: &Cluster<L>, block: &Block) -> bool
    ensures { result ≡ keeps_commits cluster.now.nodes (directive_of block.now) }
{
    !restarts(&block.directive()) && are_sound(cluster.nodes())
}
