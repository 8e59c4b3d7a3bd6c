//! Searches for least walks, in memory that is allocated once.
//!
//! A walk leads through marked pairs, which are pairs of nodes with or without a mark. Each step is a pair of letters.
//! It follows one edge from each node, and the two edges have equal labels.

ghost use Rattle.std.specs.Prelude.{ℕ, ◌+◌, ◌*◌, ◌<◌, ◌≤◌, List, length, map, IfSome, IfNone, Some};
ghost use Rattle.word_image.specs.LocalRules.{most_states};
ghost use Rattle.least_walk.specs.Queues.{IsBackward, SpellsBefore, most_steps};

use crate::breadth_first::{Ends, search};
use crate::queue::{Queue, Reached};
use pair_graph::Pairs;
use short_words::ShortWord;
use std::alloc::{AllocError, Global};
use std::marker::Model;

/// The greatest number of steps of a least walk. No two steps of it end at the same marked pair.
pub const MOST_STEPS: usize = 512;

/// Searches for least walks. Contracts say nothing about its contents, because no result depends on an earlier search.
#[derive(Debug, Drop)]
pub struct Walker {
    // The marked pairs that the last search reached.
    queue: Queue,
    // The steps of the walk that the last search found.
    steps: ShortWord,
}

impl Model for Walker {
    ghost use Rattle.std.specs.Prelude.{⊤};

    ghost Value = { ⊤ };

    ghost view = { λ w. tt };
}

impl Walker {
    ghost use Rattle.word_image.specs.Graphs.{pair_count};
    ghost use Rattle.word_image.specs.MarkedPairs.{marked};
    ghost use Rattle.search_laws.specs.PairWalks.{IsLeastWalk, PairWalk, uncode};

    /// Allocates the memory of a walker. The only error is lack of memory.
    pub fn new(alloc: Global) -> Result<Walker, AllocError> {
        Ok(Walker {
            queue: Queue::new(alloc)?,
            steps: ShortWord::new(),
        })
    }

    /// Returns the least walk of at least one step from one marked pair to another: the shortest, and among the
    /// shortest the first in the dictionary order of their pairs of letters. Returns None if there is no walk. The
    /// pair of letters (a, b) is the byte 16 a + b.
    pub fn walk(&mut self, pairs: &Pairs, from: u16, to: u16) -> Option<&[u8]>
        requires from { from < 2 * pair_count pairs.now }
        requires to { to < 2 * pair_count pairs.now }
        ensures least { IfSome result (λ steps. IsLeastWalk (marked pairs.now) pairs.now.states from to (map (uncode most_states) steps.now)) }
        ensures most { IfSome result (λ steps. length steps.now ≤ most_steps) }
        ensures none { IfNone result ((w : List (ℕ × ℕ)) → 0 < length w → ¬ PairWalk (marked pairs.now) pairs.now.states from w to) }
    {
        self.walk_within(pairs, from, to, MOST_STEPS)
    }

    /// Returns the walk that `walk` returns if this walk has at most `most` steps, and None otherwise. A limit of
    /// [`MOST_STEPS`] or more excludes no walk.
    pub fn walk_within(&mut self, pairs: &Pairs, from: u16, to: u16, most: usize) -> Option<&[u8]>
        requires from { from < 2 * pair_count pairs.now }
        requires to { to < 2 * pair_count pairs.now }
        ensures least { IfSome result (λ steps. IsLeastWalk (marked pairs.now) pairs.now.states from to (map (uncode most_states) steps.now)) }
        ensures within { IfSome result (λ steps. length steps.now ≤ most) }
        ensures most { IfSome result (λ steps. length steps.now ≤ most_steps) }
        ensures none { IfNone result ((w : List (ℕ × ℕ)) → 0 < length w → length w ≤ most → ¬ PairWalk (marked pairs.now) pairs.now.states from w to) }
        ensures all { IfNone result (most_steps ≤ most → (w : List (ℕ × ℕ)) → 0 < length w → ¬ PairWalk (marked pairs.now) pairs.now.states from w to) }
    {
        let ends = Ends {
            start: from,
            goal: Some(to),
        };
        match search(&mut self.queue, pairs, ends, most) {
            Some(arrival) => {
                self.steps.clear();
                self.steps.push(arrival.step);
                spell(self.queue.as_slice(), arrival.place, &mut self.steps);
                Some(self.steps.as_slice())
            }
            None => None,
        }
    }
}

/// Completes a walk that a search has found. Before the call, `steps` has the last steps of the walk, in reverse order.
/// After it, `steps` has all steps of the walk in their order. The added steps are those by which the search reached
/// the marked pair at `place` of the queue.
pub fn spell(queue: &[Reached], place: u16, steps: &mut ShortWord)
    requires place { place < length queue.now }
    requires most { length steps.old + place ≤ most_steps }
    requires backward { IsBackward queue.now }
    ensures spelled { SpellsBefore queue.now place steps.old steps.new }
    ensures most { length steps.new ≤ most_steps }
{
    let mut place = usize::from(place);
    while place > 0 {
        let reached = queue[place];
        steps.push(reached.step);
        place = usize::from(reached.parent);
    }
    steps.reverse();
}
