//! Rows for the states of nodes, and for what has changed.

ghost use Rattle.std.specs.Prelude.{◌≡◌, ◌↔◌, ◌<◌, ◌∷◌, [], ◌++◌, IfOk, IsTrue, OnOk, MatchOption, None, Some, length, slice_get, true};
ghost use Rattle.std.specs.List.{list_all};
ghost use Rattle.rb_raftlog.specs.Content.{content_end};
ghost use Rattle.rb_tracker.specs.Trackers.{has_view};
ghost use Rattle.rb_view.specs.Committed.{AreKept, known};
ghost use Rattle.rb_view.specs.Json.{is_byte};
ghost use Rattle.rb_view.specs.Kept.{texts_of};
ghost use Rattle.rb_view.specs.NewRows.{new_row, new_rows, new_rows_among};
ghost use Rattle.rb_view.specs.SameRows.{ShowSameNumbers};
ghost use Rattle.rb_view.specs.States.{added_rows, changed_since, config_row, gone_of, gone_rows, no_view_row, node_row, node_since, standing, state_rows, view_row, view_rows};
ghost use Rattle.rb_view.specs.Values.{ShowBytes};

use crate::rows::{Cell, flag, keep_row, role_name};
use crate::steps::fresh::keep_new;
use crate::steps::log::{keep_log, keep_log_from};
use crate::steps::views::{has_same_digits, keep_new_views};
use crate::steps::written::WrittenNode;
use rb_cluster::SharedNode;
use rb_node::{Node, State};
use rb_raftlog::RaftLog;
use rb_script::Lines;
use rb_texts::progress_state_name;
use rb_tracker::{Progress, Tracker};
use std::alloc::{AllocError, Global};

// A log with fewer entries is short.
const SHORT_LOG: u64 = 64;

// ---- what stands

fn keep_node<L: RaftLog>(texts: &mut Lines, state: &State<L>) -> Result<(), AllocError>
    ensures { OnOk result (texts.new ≡ texts.old ++ texts_of (node_row state.now ∷ [])) }
{
    let cells = [
        Cell::Number(state.id),
        Cell::Text(role_name(state.role)),
        Cell::Number(state.term),
        Cell::Number(state.vote),
        Cell::Number(state.lead),
        Cell::Number(state.commit),
        Cell::Number(state.applied),
        Cell::Number(state.log.durable()),
        Cell::Number(state.content.len() as u64),
        Cell::Text(state.content.end()),
    ];
    keep_row(texts, b"node", &cells)
}

fn keep_config<L: RaftLog>(texts: &mut Lines, state: &State<L>) -> Result<(), AllocError>
    ensures { OnOk result (texts.new ≡ texts.old ++ texts_of (config_row state.now ∷ [])) }
{
    let cells = [Cell::Number(state.id), Cell::Config(state.tracker.config())];
    keep_row(texts, b"config", &cells)
}

/// Adds the row of a view.
pub(crate) fn keep_view(
    texts: &mut Lines,
    id: u64,
    member: u64,
    view: &Progress,
) -> Result<(), AllocError>
    ensures { OnOk result (texts.new ≡ texts.old ++ texts_of (view_row id (member, view.now) ∷ [])) }
{
    let cells = [
        Cell::Number(id),
        Cell::Number(member),
        Cell::Text(progress_state_name(view.state())),
        Cell::Number(view.matched()),
        Cell::Number(view.next()),
        Cell::Number(view.window().len() as u64),
        Cell::Number(flag(view.waiting())),
        Cell::Number(view.pending()),
        Cell::Number(flag(view.active())),
    ];
    keep_row(texts, b"view", &cells)
}

fn keep_views(texts: &mut Lines, id: u64, tracker: &Tracker) -> Result<(), AllocError>
    ensures { OnOk result (texts.new ≡ texts.old ++ texts_of (view_rows id tracker.now.views)) }
{
    for i in 0..tracker.len() {
        let (member, view) = tracker.view(i);
        keep_view(texts, id, member, view)?;
    }
    Ok(())
}

// Adds the rows of all of a node but its log.
fn keep_standing<L: RaftLog>(texts: &mut Lines, state: &State<L>) -> Result<(), AllocError>
    ensures { OnOk result (texts.new ≡ texts.old ++ texts_of (standing state.now)) }
{
    keep_node(texts, state)?;
    keep_config(texts, state)?;
    keep_own_views(texts, state)
}

// Adds the rows of a node's views.
fn keep_own_views<L: RaftLog>(texts: &mut Lines, state: &State<L>) -> Result<(), AllocError>
    ensures { OnOk result (texts.new ≡ texts.old ++ texts_of (view_rows state.now.id state.now.tracker.views)) }
{
    keep_views(texts, state.id, &state.tracker)
}

// ---- changes

fn keep_no_view(texts: &mut Lines, id: u64, member: u64) -> Result<(), AllocError>
    ensures { OnOk result (texts.new ≡ texts.old ++ texts_of (no_view_row id member ∷ [])) }
{
    keep_row(texts, b"no-view", &[Cell::Number(id), Cell::Number(member)])
}

// Whether a member's view is at a place.
#[tactic(auto, using(crate::proofs::ChangeLaws::viewed_at))]
fn has_view_at(tracker: &Tracker, place: usize, member: u64) -> bool
    ensures { IsTrue result → has_view tracker.now.views member ≡ true }
{
    place < tracker.len() && tracker.view(place).0 == member
}

// Adds a row for a member that no longer has a view. Most still have it, at the same place.
fn keep_if_gone(
    texts: &mut Lines,
    id: u64,
    member: u64,
    place: usize,
    new: &Tracker,
) -> Result<(), AllocError>
    ensures { OnOk result (texts.new ≡ texts.old ++ texts_of (gone_of id new.now.views member)) }
{
    if has_view_at(new, place, member) {
        return Ok(());
    }
    if new.has_view(member) {
        return Ok(());
    }
    keep_no_view(texts, id, member)
}

// Adds rows for the members that no longer have a view.
fn keep_gone(texts: &mut Lines, id: u64, old: &Tracker, new: &Tracker) -> Result<(), AllocError>
    ensures { OnOk result (texts.new ≡ texts.old ++ texts_of (gone_rows id old.now.views new.now.views)) }
{
    for i in 0..old.len() {
        let (member, _) = old.view(i);
        keep_if_gone(texts, id, member, i, new)?;
    }
    Ok(())
}

// Adds all of a node that wasn't there.
fn keep_added<L: RaftLog>(texts: &mut Lines, new: &State<L>) -> Result<(), AllocError>
    ensures { OnOk result (texts.new ≡ texts.old ++ texts_of (added_rows new.now)) }
{
    keep_standing(texts, new)?;
    keep_log_from(texts, new.id, &new.log, new.log.first_index() - 1)
}

// Whether both have the same role.
fn has_same_role<L: RaftLog>(old: &State<L>, new: &State<L>) -> bool
    ensures { IsTrue result → old.now.role ≡ new.now.role }
{
    old.role == new.role
}

// Whether rows show the same numbers of both.
fn has_same_numbers<L: RaftLog>(old: &State<L>, new: &State<L>) -> bool
    ensures { IsTrue result ↔ ShowSameNumbers old.now new.now }
{
    has_same_digits(old.id, new.id)
        && has_same_digits(old.term, new.term)
        && has_same_digits(old.vote, new.vote)
        && has_same_digits(old.lead, new.lead)
        && has_same_digits(old.commit, new.commit)
        && has_same_digits(old.applied, new.applied)
        && has_same_digits(old.log.durable(), new.log.durable())
        && has_same_digits(old.content.len() as u64, new.content.len() as u64)
}

// Whether rows show the same last bytes of both contents.
fn has_same_end<L: RaftLog>(old: &State<L>, new: &State<L>) -> bool
    ensures { IsTrue result → content_end old.now.content ≡ content_end new.now.content }
{
    old.content.end() == new.content.end()
}

// Adds a node's numbers, if their row is not the one of before.
fn keep_other_numbers<L: RaftLog>(
    alloc: Global,
    texts: &mut Lines,
    old: &State<L>,
    new: &State<L>,
) -> Result<(), AllocError>
    ensures { OnOk result (texts.new ≡ texts.old ++ texts_of (new_row (texts_of (standing old.now)) (node_row new.now))) }
{
    let mut olds = Lines::new(alloc);
    keep_node(&mut olds, old)?;
    let mut news = Lines::new(alloc);
    keep_node(&mut news, new)?;
    keep_new(texts, &olds, &news)
}

// Adds a node's numbers, if they have changed. Rows are compared only if the role or the last bytes of the content have changed.
fn keep_new_numbers<L: RaftLog>(
    alloc: Global,
    texts: &mut Lines,
    old: &State<L>,
    new: &State<L>,
) -> Result<(), AllocError>
    ensures { OnOk result (texts.new ≡ texts.old ++ texts_of (new_row (texts_of (standing old.now)) (node_row new.now))) }
{
    if !has_same_role(old, new) {
        return keep_other_numbers(alloc, texts, old, new);
    }
    if !has_same_numbers(old, new) {
        return keep_node(texts, new);
    }
    if !has_same_end(old, new) {
        return keep_other_numbers(alloc, texts, old, new);
    }
    Ok(())
}

// Whether both have the same configuration, and so the same row.
#[tactic(auto, using(crate::proofs::NewRowLaws::same_config))]
fn has_same_config<L: RaftLog>(old: &State<L>, new: &State<L>) -> bool
    ensures { IsTrue result → config_row new.now ≡ config_row old.now }
{
    old.id == new.id && old.tracker.config().same(new.tracker.config())
}

// Whether both have the same configuration and views.
fn has_same_tracker<L: RaftLog>(old: &State<L>, new: &State<L>) -> bool
    ensures id { IsTrue result → old.now.id ≡ new.now.id }
    ensures tracker { IsTrue result → old.now.tracker ≡ new.now.tracker }
{
    old.id == new.id && old.tracker.same(&new.tracker)
}

// Adds a node's configuration, if it has changed.
fn keep_new_config<L: RaftLog>(
    alloc: Global,
    texts: &mut Lines,
    old: &State<L>,
    new: &State<L>,
) -> Result<(), AllocError>
    ensures { OnOk result (texts.new ≡ texts.old ++ texts_of (new_row (texts_of (standing old.now)) (config_row new.now))) }
{
    if has_same_config(old, new) {
        return Ok(());
    }
    let mut olds = Lines::new(alloc);
    keep_config(&mut olds, old)?;
    let mut news = Lines::new(alloc);
    keep_config(&mut news, new)?;
    keep_new(texts, &olds, &news)
}

// Adds a node's configuration and views, where they have changed.
fn keep_new_tracker<L: RaftLog>(
    alloc: Global,
    texts: &mut Lines,
    old: &State<L>,
    new: &State<L>,
) -> Result<(), AllocError>
    ensures { OnOk result (texts.new ≡ texts.old ++ texts_of (new_rows_among (texts_of (standing old.now)) (config_row new.now ∷ view_rows new.now.id new.now.tracker.views))) }
{
    if has_same_tracker(old, new) {
        return Ok(());
    }
    keep_new_config(alloc, texts, old, new)?;
    keep_new_views(texts, old, new)
}

// Adds the rows of a node's numbers, configuration and views that have changed.
fn keep_restated<L: RaftLog>(
    alloc: Global,
    texts: &mut Lines,
    old: &State<L>,
    new: &State<L>,
) -> Result<(), AllocError>
    ensures { OnOk result (texts.new ≡ texts.old ++ texts_of (new_rows (standing old.now) (standing new.now))) }
{
    keep_new_numbers(alloc, texts, old, new)?;
    keep_new_tracker(alloc, texts, old, new)
}

// Adds what of a node is not as it was. Entries up to an index aren't compared.
fn keep_changed<L: RaftLog>(
    alloc: Global,
    texts: &mut Lines,
    old: &State<L>,
    new: &State<L>,
    known: u64,
) -> Result<(), AllocError>
    ensures { OnOk result (texts.new ≡ texts.old ++ texts_of (changed_since known old.now new.now)) }
{
    keep_restated(alloc, texts, old, new)?;
    keep_gone(texts, new.id, &old.tracker, &new.tracker)?;
    keep_log(texts, new.id, &old.log, &new.log, known)
}

// Whether a comparison with all entries of the log costs less than the rows of the node.
fn has_short_log<L: RaftLog>(state: &State<L>) -> bool {
    state.log.last_index() < state.log.first_index().saturating_add(SHORT_LOG)
}

// Whether a node is as it was, where that is quick to see.
fn is_seen_same<L: RaftLog>(old: &State<L>, new: &State<L>) -> bool
    ensures { IsTrue result → new.now ≡ old.now }
{
    has_short_log(new) && new.same(old)
}

// Adds what of a node is not as it was. Usually it is, and then its rows aren't put together to be compared.
fn keep_if_changed<L: RaftLog>(
    alloc: Global,
    texts: &mut Lines,
    old: &State<L>,
    new: &State<L>,
    known: u64,
) -> Result<(), AllocError>
    ensures { OnOk result (texts.new ≡ texts.old ++ texts_of (changed_since known old.now new.now)) }
{
    if is_seen_same(old, new) {
        return Ok(());
    }
    keep_changed(alloc, texts, old, new, known)
}

// The node at an index, if there is one.
fn old_at<L: RaftLog>(olds: &[WrittenNode<L>], index: usize) -> Option<&State<L>>
    ensures { MatchOption result (slice_get olds.now index ≡ None) (λ node. slice_get olds.now index ≡ Some node.now) }
{
    match olds.get(index) {
        Some(written) => Some(written.state()),
        None => None,
    }
}

// The index up to which a node's entries are known to stay, if what is committed does.
fn known<L: RaftLog>(state: &State<L>, keeps: bool) -> u64
    ensures { result ≡ known keeps state.now }
{
    if keeps { state.commit } else { 0 }
}

/// The same bytes, each of which is one by its type.
pub(crate) fn as_bytes(bytes: &[u8]) -> &[u8]
    ensures same { result.now ≡ bytes.now }
    ensures bytes { list_all is_byte bytes.now ≡ true }
{
    bytes
}

/// What is shown of a node's content is bytes.
pub(crate) fn content_is_bytes<L: RaftLog>(node: &Node<L>)
    ensures { list_all is_byte (content_end node.now.content) ≡ true }
{
    as_bytes(node.status().content.end());
}

// The node at an index. Its visible content is bytes.
fn node_at<L: RaftLog>(nodes: &[SharedNode<L>], index: usize) -> &Node<L>
    requires { index < length nodes.now }
    ensures node { slice_get nodes.now index ≡ Some result.now }
    ensures bytes { list_all is_byte (content_end result.now.content) ≡ true }
{
    let node = nodes[index].node();
    content_is_bytes(node);
    node
}

/// Adds what of the node at an index is not as it was, or all of it where it wasn't there. The entries that it knew to be committed aren't
/// compared, if they stay.
pub(crate) fn keep_node_at<L: RaftLog>(
    alloc: Global,
    texts: &mut Lines,
    olds: &[WrittenNode<L>],
    index: usize,
    new: &Node<L>,
    keeps: bool,
) -> Result<(), AllocError>
    ensures { OnOk result (texts.new ≡ texts.old ++ texts_of (node_since keeps (slice_get olds.now index) new.now)) }
{
    match old_at(olds, index) {
        Some(old) => keep_if_changed(alloc, texts, old, new.status(), known(old, keeps)),
        None => keep_added(texts, new.status()),
    }
}

/// Adds what of the nodes is not as it was, where these were before, and each has what it knew to be committed, if that is said. What is shown of
/// their contents is bytes.
pub(crate) fn keep_states<L: RaftLog>(
    alloc: Global,
    texts: &mut Lines,
    olds: &[WrittenNode<L>],
    news: &[SharedNode<L>],
    keeps: bool,
) -> Result<(), AllocError>
    requires { keeps ≡ true → AreKept olds.now news.now }
    ensures texts { OnOk result (texts.new ≡ texts.old ++ texts_of (state_rows olds.now news.now)) }
    ensures bytes { OnOk result (ShowBytes news.now) }
{
    for i in 0..news.len() {
        keep_node_at(alloc, texts, olds, i, node_at(news, i), keeps)?;
    }
    Ok(())
}
