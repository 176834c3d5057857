//! Entries of a Raft log, snapshots, and logs.
//!
//! [`RaftLog`] is the trait of a log; [`PlainLog`] and [`SplitLog`] implement it. [`Entries`] are the entries in a message. [`Content`] is
//! the state of a node: the applied payloads.
#![tactic(auto)]

mod content;
mod entries;
mod entry;
mod entry_list;
mod laws;
mod limits;
mod log;
mod page;
mod page_list;
mod pages;
mod pieces;
mod plain_store;
mod raft_log;
mod shared_vec;
mod snapshot;
mod split_store;
mod store;
mod try_copy;

pub use content::Content;
pub use entries::Entries;
pub use entry::{Body, Entry};
pub use entry_list::EntryList;
pub use laws::{
    answers_say_what_is_held, appended_entries_match, appending_again_changes_nothing, bases_move,
    committed_entries_stay, compacting_keeps_terms, conflicting_entries_go,
    durable_is_what_was_written, durable_stays_within, entries_stand_at_their_indexes,
    held_entries_stay, hints_are_greatest, logs_are_ordered, logs_keep_matching,
    newer_is_by_term_and_length, restarted_logs_have_what_is_durable, saved_entries_stay,
    what_gives_way_is_gone,
};
pub use limits::{MAX_INDEX, MAX_TERM, limits_are};
pub use log::Log;
pub use pages::Pages;
pub use pieces::Pieces;
pub use plain_store::PlainStore;
pub use raft_log::{Appended, CompactFault, LogFault, RaftLog, held_entry};
pub use snapshot::Snapshot;
pub use split_store::SplitStore;
pub use store::Store;
pub use try_copy::{TryCopy, copies_of, push_copies};

// The types of changes and configurations, from rb_vocab, which entries and snapshots contain.
pub use rb_vocab::{ConfState, Shared, Transition, Word, WordKind};

/// A log whose entries are one list.
pub type PlainLog = Log<PlainStore>;

/// A log whose entries are in pages, which copies share.
pub type SplitLog = Log<SplitStore>;
