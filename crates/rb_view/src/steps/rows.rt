//! The rows of what a directive does.

ghost use Rattle.std.specs.Prelude.{◌≡◌, ◌++◌, [], IfOk, OnOk, Some, slice_get, slice_set};
ghost use Rattle.rb_view.specs.Kept.{texts_of};
ghost use Rattle.rb_view.specs.Watching.{reason_rows, shown_texts};
ghost use Rattle.rb_texts.specs.Items.{plain_item};

use crate::rows::{Cell, keep_item, keep_row, past, reason_line};
use crate::steps::node::{content_is_bytes, keep_node_at};
use crate::steps::room::has_room;
use crate::steps::written::{WrittenNode, written_nodes};
use rb_cluster::Cluster;
use rb_machine::Observer;
use rb_node::Node;
use rb_raftlog::RaftLog;
use rb_script::Lines;
use rb_texts::{Item, Reason, reason_of};
use rb_vocab::Level;
use std::alloc::{AllocError, Global};

// The blanks that a reason's line begins with.
const INDENTATION: usize = 2;

/// The rows of what a directive does, whatever the level is: a text an item, and one a row of what changed at a node that has settled.
#[derive(Drop)]
pub(crate) struct EventRows<L: RaftLog> {
    alloc: Global,
    /// None is kept where a page has no room for all.
    pub(crate) texts: Option<Lines>,
    /// The nodes as they were written last.
    pub(crate) nodes: Vec<WrittenNode<L>>,
    /// Whether what they knew to be committed stays.
    pub(crate) keeps: bool,
}

// Puts a node at an index, if there is one.
fn rewrite<L: RaftLog>(
    nodes: &mut Vec<WrittenNode<L>>,
    index: usize,
    node: &Node<L>,
) -> Result<(), AllocError>
    ensures { OnOk result (nodes.new.items ≡ slice_set nodes.old.items index node.now) }
{
    match nodes.get_mut(index) {
        Some(written) => written.rewrite(node),
        None => Ok(()),
    }
}

// Adds what happened, and why.
fn keep_shown(alloc: Global, texts: &mut Lines, item: &Item<'_>) -> Result<(), AllocError>
    ensures { OnOk result (texts.new ≡ texts.old ++ shown_texts (plain_item item.now)) }
{
    keep_item(texts, item)?;
    keep_reason(alloc, texts, reason_of(item)?)
}

// Adds why nothing came of a message, why a vote was refused, or which entries give way.
fn keep_reason(alloc: Global, texts: &mut Lines, reason: Option<Reason>) -> Result<(), AllocError>
    ensures { OnOk result (texts.new ≡ texts.old ++ texts_of (reason_rows reason)) }
{
    let Some(reason) = reason else {
        return Ok(());
    };
    let lines = reason_line(alloc, &reason)?;
    let said = past(lines.line(0), INDENTATION);
    keep_row(texts, b"reason", &[Cell::Text(said)])
}

impl<L: RaftLog> EventRows<L> {
    ghost use Rattle.rb_view.specs.PageRoom.{held_with};
    ghost use Rattle.rb_view.specs.States.{node_since};

    /// None. The nodes were written as they are in the cluster.
    pub(crate) fn new(
        alloc: Global,
        cluster: &Cluster<L>,
        keeps: bool,
    ) -> Result<EventRows<L>, AllocError>
        ensures texts { IfOk result (λ rows. rows.texts ≡ Some []) }
        ensures nodes { IfOk result (λ rows. rows.nodes.items ≡ cluster.now.nodes) }
        ensures keeps { IfOk result (λ rows. rows.keeps ≡ keeps) }
    {
        Ok(EventRows {
            alloc,
            texts: Some(Lines::new(alloc)),
            nodes: written_nodes(alloc, cluster.nodes())?,
            keeps,
        })
    }

    // Adds what of the node at an index is not as it was.
    fn keep_changes(&mut self, index: usize, node: &Node<L>) -> Result<(), AllocError>
        ensures texts { OnOk result (self.new.texts ≡ held_with self.old.texts (texts_of (node_since self.old.keeps (slice_get self.old.nodes.items index) node.now))) }
        ensures nodes { OnOk result (self.new.nodes ≡ self.old.nodes) }
        ensures keeps { OnOk result (self.new.keeps ≡ self.old.keeps) }
    {
        let Some(texts) = &mut self.texts else {
            return Ok(());
        };
        keep_node_at(self.alloc, texts, &self.nodes, index, node, self.keeps)?;
        if !has_room(texts) {
            self.texts = None;
        }
        Ok(())
    }

    /// The rows, if there is room for them, and the nodes as they were written last.
    pub(crate) fn into_parts(self) -> (Option<Lines>, Vec<WrittenNode<L>>)
        ensures texts { result.0 ≡ self.texts }
        ensures nodes { result.1 ≡ self.nodes }
    {
        let EventRows {
            alloc: _,
            texts,
            nodes,
            keeps: _,
        } = self;
        (texts, nodes)
    }
}

impl<L: RaftLog> Observer<L> for EventRows<L> {
    ghost use Rattle.std.specs.Prelude.{true};
    ghost use Rattle.rb_view.specs.Watching.{Watching, with_item, with_node};

    ghost Meaning = { Watching };

    ghost meaning = { λ rows. record { texts = rows.texts; nodes = rows.nodes.items; keeps = rows.keeps; of_bytes = true } };

    ghost starting = { λ w level. w };

    ghost taking = { with_item };

    ghost settling = { with_node };

    fn start(&mut self, _level: Level) {}

    fn observe(&mut self, item: &Item<'_>) -> Result<(), AllocError> {
        let Some(texts) = &mut self.texts else {
            return Ok(());
        };
        keep_shown(self.alloc, texts, item)?;
        if !has_room(texts) {
            self.texts = None;
        }
        Ok(())
    }

    fn settle(&mut self, id: u64, node: &Node<L>) -> Result<(), AllocError> {
        let index = id.saturating_sub(1) as usize;
        content_is_bytes(node);
        self.keep_changes(index, node)?;
        rewrite(&mut self.nodes, index, node)
    }
}
