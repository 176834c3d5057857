//! Windows: the appends in flight to a follower.
//!
//! A leader sends appends without waiting for responses, until the window is full. The window keeps the last index of each append. The
//! indexes ascend, and a response for one frees it and all lower ones (etcd raft documentation: "Inflights").
ghost use Rattle.std.specs.Prelude.{◌≡◌, ◌<◌, ◌≤◌, ◌↔◌, ◌==◌, ◌+◌, [], length, IsTrue, IfOk, Some, slice_get, drop};
ghost use Rattle.rb_tracker.specs.Sets.{AreBelow, IsAscending};
ghost use Rattle.rb_tracker.specs.Windows.{empty_window, is_full, emptied, pushed, freed};

use circular_buffer::HeapCircularBuffer;
use std::alloc::{AllocError, Global};
use std::marker::Model;

/// The last index of each append in flight, in a ring.
pub struct Window {
    ring: HeapCircularBuffer<u64>,
}

// Written by hand, so that an owner drops one by a call, which is proved only here.
impl Drop for Window {
    fn drop(self) {
        let Window { ring: _ } = self;
    }
}

impl Model for Window {
    ghost use Rattle.rb_tracker.specs.Windows.{PlainWindow, IsWindow};

    ghost Value = { PlainWindow };

    ghost view = { λ window. record { in_flight = window.ring.items; capacity = window.ring.capacity } };

    ghost invariant = { λ window. IsWindow window.ring.items window.ring.capacity };
}

impl Window {
    /// An empty window with room for `capacity` appends. It takes no memory after this.
    pub fn new(alloc: Global, capacity: usize) -> Result<Window, AllocError>
        ensures { IfOk result (λ window. window ≡ empty_window capacity) }
    {
        Ok(Window {
            ring: HeapCircularBuffer::with_capacity(alloc, capacity)?,
        })
    }

    /// The number of appends in flight.
    pub fn len(&self) -> usize
        ensures len { result ≡ length self.now.in_flight }
        ensures within { length self.now.in_flight ≤ self.now.capacity }
        ensures ascending { IsAscending self.now.in_flight }
    {
        self.ring.len()
    }

    pub fn is_empty(&self) -> bool
        ensures { result ≡ (length self.now.in_flight == 0) }
    {
        self.ring.is_empty()
    }

    /// The most appends that may be in flight.
    pub fn capacity(&self) -> usize
        ensures { result ≡ self.now.capacity }
    {
        self.ring.capacity()
    }

    /// Whether no more appends may be sent.
    pub fn is_full(&self) -> bool
        ensures full { result ≡ is_full self.now }
        ensures within { length self.now.in_flight ≤ self.now.capacity }
    {
        self.ring.is_full()
    }

    /// The index at a place, counted from the earliest append.
    pub fn index_at(&self, place: usize) -> u64
        requires { place < length self.now.in_flight }
        ensures { slice_get self.now.in_flight place ≡ Some result }
    {
        *self.ring.get(place).unwrap()
    }

    /// Adds an append, whose last index is above all others.
    pub fn push(&mut self, index: u64)
        requires room { length self.old.in_flight < self.old.capacity }
        requires above { AreBelow index self.old.in_flight }
        ensures { self.new ≡ pushed self.old index }
    {
        self.ring.push_back(index);
    }

    /// Removes all appends.
    pub fn clear(&mut self)
        ensures { self.new ≡ emptied self.old }
    {
        self.ring.clear();
    }

    // Removes the earliest append.
    fn pop(&mut self)
        requires { 0 < length self.old.in_flight }
        ensures { self.new ≡ record self.old { in_flight = drop 1 self.old.in_flight } }
    {
        self.ring.pop_front();
    }

    /// Frees the appends up to an index. They ascend, so it stops at the first one above the index.
    pub fn free_through(&mut self, index: u64)
        ensures { self.new ≡ freed self.old index }
    {
        while self.len() > 0 && self.index_at(0) <= index {
            self.pop();
        }
    }

    #[tactic(auto, using(crate::proofs::WindowLaws::parts_fit))]
    pub fn try_copy(&self) -> Result<Window, AllocError>
        ensures { IfOk result (λ copy. copy ≡ self.now) }
    {
        let mut ring = HeapCircularBuffer::with_capacity(
            *self.ring.allocator(),
            self.ring.capacity(),
        )?;
        let (front, back) = self.ring.as_slices();
        ring.extend_from_slice(front);
        ring.extend_from_slice(back);
        Ok(Window { ring })
    }

    /// Whether both have equal appends in flight and the same capacity. Takes no memory.
    pub fn same(&self, other: &Window) -> bool
        ensures { IsTrue result ↔ (self.now ≡ other.now) }
    {
        if self.len() != other.len() || self.capacity() != other.capacity() {
            return false;
        }
        for place in 0..self.len() {
            if self.index_at(place) != other.index_at(place) {
                return false;
            }
        }
        true
    }
}

impl Clone for Window {
    ghost is_clone = { λ window copy. copy ≡ window };

    fn clone(&self) -> Result<Window, AllocError> {
        self.try_copy()
    }
}
