//! Rows of the views that have changed. A view has the row of another only if all of it that is shown is the same, so no row is written to be compared.

ghost use Rattle.std.specs.Prelude.{◌≡◌, ◌↔◌, ◌++◌, IsTrue, OnOk, decimal};
ghost use Rattle.rb_view.specs.Kept.{texts_of};
ghost use Rattle.rb_view.specs.NewRows.{has_text, new_row, new_rows_among};
ghost use Rattle.rb_view.specs.Rows.{next_text};
ghost use Rattle.rb_view.specs.SameRows.{ShowSameView, ShowSameProgress};
ghost use Rattle.rb_view.specs.States.{standing, view_row, view_rows};

use crate::rows::flag;
use crate::steps::node::keep_view;
use rb_node::State;
use rb_raftlog::RaftLog;
use rb_script::Lines;
use rb_tracker::{Progress, Tracker};
use std::alloc::AllocError;

/// Whether both numbers have the same digits.
pub(crate) fn has_same_digits(n: u64, other: u64) -> bool
    ensures { IsTrue result ↔ (decimal n ≡ decimal other) }
{
    n == other
}

// Whether both views have the same state.
fn has_same_state(view: &Progress, other: &Progress) -> bool
    ensures { IsTrue result ↔ (view.now.state ≡ other.now.state) }
{
    view.state() == other.state()
}

// Whether rows show the same of both views, beside their members.
fn has_same_progress(view: &Progress, other: &Progress) -> bool
    ensures { IsTrue result ↔ ShowSameProgress view.now other.now }
{
    has_same_state(view, other)
        && has_same_digits(view.matched(), other.matched())
        && has_same_digits(view.next(), other.next())
        && has_same_digits(view.window().len() as u64, other.window().len() as u64)
        && has_same_digits(flag(view.waiting()), flag(other.waiting()))
        && has_same_digits(view.pending(), other.pending())
        && has_same_digits(flag(view.active()), flag(other.active()))
}

// A node's view of a member.
#[derive(Clone, Copy)]
struct OwnView<'a> {
    id: u64,
    member: u64,
    view: &'a Progress,
}

// Whether both have the same row.
fn has_same_row(own: OwnView<'_>, other: OwnView<'_>) -> bool
    ensures { IsTrue result ↔ ShowSameView own.entry.id (own.entry.member, own.entry.view.now) other.entry.id (other.entry.member, other.entry.view.now) }
{
    has_same_digits(own.id, other.id)
        && has_same_digits(own.member, other.member)
        && has_same_progress(own.view, other.view)
}

// Whether one of a node's views has this one's row.
fn has_row_among(own: OwnView<'_>, id: u64, tracker: &Tracker) -> bool
    ensures { result ≡ has_text (texts_of (view_rows id tracker.now.views)) (next_text (view_row own.entry.id (own.entry.member, own.entry.view.now))) }
{
    for i in 0..tracker.len() {
        let (member, view) = tracker.view(i);
        let other = OwnView { id, member, view };
        if has_same_row(own, other) {
            return true;
        }
    }
    false
}

// Adds a view, if none of before has its row.
fn keep_new_view(
    texts: &mut Lines,
    own: OwnView<'_>,
    id: u64,
    old: &Tracker,
) -> Result<(), AllocError>
    ensures { OnOk result (texts.new ≡ texts.old ++ texts_of (new_row (texts_of (view_rows id old.now.views)) (view_row own.entry.id (own.entry.member, own.entry.view.now)))) }
{
    if has_row_among(own, id, old) {
        return Ok(());
    }
    keep_view(texts, own.id, own.member, own.view)
}

// Adds the views of a node that have changed.
fn keep_views_since(
    texts: &mut Lines,
    old_id: u64,
    old: &Tracker,
    id: u64,
    new: &Tracker,
) -> Result<(), AllocError>
    ensures { OnOk result (texts.new ≡ texts.old ++ texts_of (new_rows_among (texts_of (view_rows old_id old.now.views)) (view_rows id new.now.views))) }
{
    for i in 0..new.len() {
        let (member, view) = new.view(i);
        keep_new_view(texts, OwnView { id, member, view }, old_id, old)?;
    }
    Ok(())
}

// Adds the views of a state that have changed since another.
fn keep_own_views_since<L: RaftLog>(
    texts: &mut Lines,
    old: &State<L>,
    new: &State<L>,
) -> Result<(), AllocError>
    ensures { OnOk result (texts.new ≡ texts.old ++ texts_of (new_rows_among (texts_of (view_rows old.now.id old.now.tracker.views)) (view_rows new.now.id new.now.tracker.views))) }
{
    keep_views_since(texts, old.id, &old.tracker, new.id, &new.tracker)
}

/// Adds the views that have changed. Each is compared with all of before.
pub(crate) fn keep_new_views<L: RaftLog>(
    texts: &mut Lines,
    old: &State<L>,
    new: &State<L>,
) -> Result<(), AllocError>
    ensures { OnOk result (texts.new ≡ texts.old ++ texts_of (new_rows_among (texts_of (standing old.now)) (view_rows new.now.id new.now.tracker.views))) }
{
    keep_own_views_since(texts, old, new)
}
