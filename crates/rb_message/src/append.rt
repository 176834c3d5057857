//! The body of append entries.
//!
//! A leader sends the entries after one that it expects its follower to hold. It names that entry's index and term, so a follower with
//! another entry there refuses (the consistency check of Ongaro's thesis, section 3.5). The message also has the leader's commit.

ghost use Rattle.std.specs.Prelude.{◌≡◌, ◌-◌, ◌≤◌, length};
ghost use Rattle.rb_raftlog.specs.declared.limits.TheConstants.{MAX_INDEX};
ghost use Rattle.rb_message.specs.Appends.{PlainAppend, same_appends, appends_per};

use rb_raftlog::Entries;
use std::marker::Model;

/// The entries after `prev`. There are none past the limit of indexes. A copy costs pointers.
#[derive(Clone, Drop)]
pub struct Append {
    prev_term: u64,
    prev: u64,
    commit: u64,
    entries: Entries,
}

impl Model for Append {
    ghost use Rattle.std.specs.Prelude.{◌-◌, ◌≤◌, length};
    ghost use Rattle.rb_raftlog.specs.declared.limits.TheConstants.{MAX_INDEX};
    ghost use Rattle.rb_message.specs.Appends.{PlainAppend};

    ghost Value = { PlainAppend };

    ghost view = { λ a. record { prev_term = a.prev_term; prev = a.prev; commit = a.commit; entries = a.entries } };

    ghost invariant = { λ a. length a.entries ≤ MAX_INDEX - a.prev };
}

impl Append {
    /// An append of the entries from index `prev + 1` on, after one of term `prev_term`, from a log with this commit.
    pub fn new(prev_term: u64, prev: u64, commit: u64, entries: Entries) -> Append
        requires { length entries ≤ MAX_INDEX - prev }
        ensures { result ≡ record { prev_term = prev_term; prev = prev; commit = commit; entries = entries } }
    {
        Append {
            prev_term,
            prev,
            commit,
            entries,
        }
    }

    /// The term of the entry before the first.
    pub fn prev_term(&self) -> u64
        ensures { result ≡ self.now.prev_term }
    {
        self.prev_term
    }

    /// The index of the entry before the first.
    pub fn prev(&self) -> u64
        ensures value { result ≡ self.now.prev }
        ensures within { length self.now.entries ≤ MAX_INDEX - self.now.prev }
    {
        self.prev
    }

    /// The sender's commit.
    pub fn commit(&self) -> u64
        ensures { result ≡ self.now.commit }
    {
        self.commit
    }

    /// The entries.
    pub fn entries(&self) -> &Entries
        ensures { result.now ≡ self.now.entries }
    {
        &self.entries
    }
}

impl PartialEq for Append {
    ghost eq = { same_appends };

    ghost laws = { appends_per };

    // Compares numbers first.
    fn eq(&self, other: &Append) -> bool {
        self.prev == other.prev
            && self.prev_term == other.prev_term
            && self.commit == other.commit
            && self.entries == other.entries
    }
}
