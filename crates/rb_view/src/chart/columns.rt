//! The nodes of a picture.

use crate::chart::shape::Shape;
use crate::chart::sizes::{HALF_BAND, HALF_GAP, middle};
use rb_message::Role;
use std::alloc::{AllocError, Global};

/// A node: its role, where its band in that role begins, and the last commit and base that were seen.
#[derive(Clone, Copy)]
struct Column {
    role: Role,
    top: u64,
    commit: Option<u64>,
    base: Option<u64>,
}

/// The nodes, whose ids count from 1.
#[derive(Drop)]
pub(crate) struct Columns {
    columns: Vec<Column>,
}

// Half of a band.
fn half_of(role: Role) -> u64 {
    match role {
        Role::Leader => HALF_BAND,
        Role::Candidate | Role::Precandidate => 4,
        Role::Follower => 3,
    }
}

// The band of node `id` in its role.
fn band_of(id: u64, column: Column, bottom: u64) -> Shape {
    let half = half_of(column.role);
    Shape::Band {
        role: column.role,
        x: middle(id).saturating_sub(half),
        y: column.top,
        width: half.saturating_mul(2),
        height: bottom.saturating_sub(column.top),
    }
}

// The greater of an old and a new value, and whether it is the new one.
fn raised(known: Option<u64>, value: u64) -> (Option<u64>, bool) {
    match known {
        None => (Some(value), false),
        Some(old) => (Some(old.max(value)), old < value),
    }
}

// The index of a node.
fn position(id: u64) -> usize {
    (id as usize).saturating_sub(1)
}

impl Columns {
    pub(crate) fn new(alloc: Global) -> Columns {
        Columns {
            columns: Vec::new(alloc),
        }
    }

    pub(crate) fn len(&self) -> usize {
        self.columns.len()
    }

    /// Whether there is such a node.
    pub(crate) fn has(&self, id: u64) -> bool {
        position(id) < self.columns.len()
    }

    /// Adds the next node, a follower.
    pub(crate) fn start(&mut self, top: u64) -> Result<(), AllocError> {
        self.columns.push(Column {
            role: Role::Follower,
            top,
            commit: None,
            base: None,
        })?;
        Ok(())
    }

    /// Adds the next node in a known state.
    pub(crate) fn come_in(
        &mut self,
        role: Role,
        top: u64,
        commit: u64,
        base: u64,
    ) -> Result<(), AllocError> {
        self.columns.push(Column {
            role,
            top,
            commit: Some(commit),
            base: Some(base),
        })?;
        Ok(())
    }

    /// Ends the band of a node that changes its role; the next band begins there.
    pub(crate) fn turn(&mut self, id: u64, role: Role, y: u64) -> Option<Shape> {
        let Some(column) = self.columns.get_mut(position(id)) else {
            return None;
        };
        let band = band_of(id, *column, y);
        column.role = role;
        column.top = y;
        Some(band)
    }

    /// Ends the band of a node that restarts; the next one, of a follower, begins after a gap. The node's commit and its log's base are known.
    pub(crate) fn restarts(&mut self, id: u64, y: u64, commit: u64, base: u64) -> Option<Shape> {
        let band = self.turn(id, Role::Follower, y.saturating_sub(HALF_GAP))?;
        if let Some(column) = self.columns.get_mut(position(id)) {
            column.top = y.saturating_add(HALF_GAP);
            column.commit = Some(commit);
            column.base = Some(base);
        }
        Some(band)
    }

    /// The last band of the node at an index.
    pub(crate) fn last_band(&self, at: usize, bottom: u64) -> Option<Shape> {
        let column = self.columns.get(at)?;
        Some(band_of((at as u64).saturating_add(1), *column, bottom))
    }

    /// Records a node's commit. Returns whether it has moved.
    pub(crate) fn commits(&mut self, id: u64, commit: u64) -> bool {
        let Some(column) = self.columns.get_mut(position(id)) else {
            return false;
        };
        let (known, has_moved) = raised(column.commit, commit);
        column.commit = known;
        has_moved
    }

    /// Records where a node's log begins. Returns whether that has moved.
    pub(crate) fn compacts(&mut self, id: u64, base: u64) -> bool {
        let Some(column) = self.columns.get_mut(position(id)) else {
            return false;
        };
        let (known, has_moved) = raised(column.base, base);
        column.base = known;
        has_moved
    }

    /// Records that a snapshot replaced a node's log.
    pub(crate) fn restores(&mut self, id: u64, index: u64) {
        if let Some(column) = self.columns.get_mut(position(id)) {
            column.commit = Some(index);
            column.base = Some(index);
        }
    }
}
