//! The queue of a breadth-first search through the marked pairs.
//!
//! A marked pair is a pair of nodes, with or without a mark. The queue lists the marked pairs in the order in which the
//! search reaches them.

ghost use Rattle.std.specs.Prelude.{◌≡◌, ◌<◌, ◌≤◌, ◌++◌, ◌∷◌, [], length, slice_get, Some, IfOk};
ghost use Rattle.word_image.specs.MarkedPairs.{most_marked_pairs};

use std::alloc::{AllocError, Global};
use std::marker::Model;
use word_image::MOST_PAIRS;

/// The greatest number of marked pairs of a rule.
pub const MOST_MARKED_PAIRS: usize = 2 * MOST_PAIRS;

/// A marked pair in the queue of a search, and the step by which the search first reached it. The step leads from the
/// marked pair at the place `parent` of the queue, and its letters (a, b) are the number 16 a + b. The start of the
/// search is at place 0, and its `parent` and `step` have no meaning.
#[derive(Clone, Copy, Debug)]
pub struct Reached {
    /// The number of the marked pair.
    pub pair: u16,
    /// The place in the queue of the marked pair from which this one was reached.
    pub parent: u16,
    /// The pair of letters by which this marked pair was reached.
    pub step: u8,
    /// The number of steps from the start of the search to this marked pair.
    pub depth: u16,
}

/// The marked pairs that a search has reached, at most 512. Contracts treat the queue as the list of its items. `new`
/// allocates all memory.
#[derive(Debug, Drop)]
pub struct Queue {
    // The items of the queue, with capacity for 512 items.
    items: Vec<Reached>,
}

impl Model for Queue {
    ghost use Rattle.std.specs.Prelude.{◌≤◌, List, length, vec_capacity};
    ghost use Rattle.word_image.specs.MarkedPairs.{most_marked_pairs};
    ghost use Rattle.least_walk.specs.declared.queue.Reached.{Reached};

    ghost Value = { List Reached };

    ghost view = { λ q. q.items.items };

    ghost invariant = { λ q. (length q.items.items ≤ most_marked_pairs) × (most_marked_pairs ≤ vec_capacity q.items) };
}

impl Queue {
    /// Allocates the memory of a queue, which is empty. The only error is lack of memory.
    pub fn new(alloc: Global) -> Result<Queue, AllocError>
        ensures { IfOk result (λ queue. queue ≡ []) }
    {
        Ok(Queue {
            items: Vec::with_capacity(alloc, MOST_MARKED_PAIRS)?,
        })
    }

    /// Removes all items.
    pub fn clear(&mut self)
        ensures { self.new ≡ [] }
    {
        self.items.clear();
    }

    /// Appends an item to a queue of at most 511 items.
    pub fn push(&mut self, item: Reached)
        requires { length self.old < most_marked_pairs }
        ensures { self.new ≡ self.old ++ item ∷ [] }
    {
        self.items.push_reserved(item);
    }

    /// Returns the number of items.
    pub fn len(&self) -> usize
        ensures len { result ≡ length self.now }
        ensures most { result ≤ most_marked_pairs }
    {
        self.items.len()
    }

    /// Returns the item at this place.
    pub fn at(&self, place: usize) -> Reached
        requires { place < length self.now }
        ensures { slice_get self.now place ≡ Some result }
    {
        self.items[place]
    }

    /// Returns the items in their order.
    pub fn as_slice(&self) -> &[Reached]
        ensures items { result.now ≡ self.now }
        ensures most { length result.now ≤ most_marked_pairs }
    {
        &self.items
    }
}
