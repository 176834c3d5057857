//! Observers of a run.

ghost use Rattle.std.specs.Prelude.{◌≡◌, ℕ, map, fold, OnOk};
ghost use Rattle.rb_vocab.specs.declared.level.Level.{Level};
ghost use Rattle.rb_node.specs.Node.{PlainNode};
ghost use Rattle.rb_texts.specs.Items.{PlainItem, plain_item, event};

use rb_message::Event;
use rb_node::Node;
use rb_raftlog::RaftLog;
use rb_texts::Item;
use rb_vocab::Level;
use std::alloc::AllocError;

/// Gets the items of a directive while it runs, and each node after an event.
pub trait Observer<L: RaftLog> {
    // the observer's meaning, and the meaning after it gets the level, an item or a node; an observer that promises nothing has the meaning `Unit`
    ghost Meaning: { Type 0 };

    ghost meaning: { Self → Meaning };

    ghost starting: { Meaning → Level → Meaning };

    ghost taking: { Meaning → PlainItem → Meaning };

    ghost settling: { Meaning → ℕ → PlainNode → Meaning };

    /// Begins a directive, whose items have this level.
    fn start(&mut self, level: Level)
        ensures { meaning self.new ≡ starting (meaning self.old) level };

    /// Takes an item of any level.
    ///
    /// # Errors
    ///
    /// If memory was refused. It is then unknown what the observer has taken.
    fn observe(&mut self, item: &Item<'_>) -> Result<(), AllocError>
        ensures { OnOk result (meaning self.new ≡ taking (meaning self.old) (plain_item item.now)) };

    /// Takes the node with this id, which has reached its state after an event: a delivered message, a ready that was processed, or a call.
    ///
    /// # Errors
    ///
    /// As [`Observer::observe`].
    fn settle(&mut self, id: u64, node: &Node<L>) -> Result<(), AllocError>
        ensures { OnOk result (meaning self.new ≡ settling (meaning self.old) id node.now) };
}

/// Shows a node's events.
pub fn show_events<L: RaftLog, O: Observer<L>>(
    observer: &mut O,
    events: &[Event],
) -> Result<(), AllocError>
    ensures { OnOk result (O.meaning observer.new ≡ fold O.taking (O.meaning observer.old) (map event events.now)) }
{
    for event in events {
        observer.observe(&Item::Event(event))?;
    }
    Ok(())
}
