//! The least walks from one marked pair to all others.
//!
//! A marked pair is a pair of nodes, with or without a mark. A step on two letters follows one edge from each node, and
//! the two edges have equal labels. The step sets the mark if the letters differ.

ghost use Rattle.std.specs.Prelude.{All, Contains, ◌≡◌, ℕ, ◌*◌, ◌<◌, ◌≤◌, List, length, map, Some, slice_get, slice_index, IfSome, IfNone, MatchOption};
ghost use Rattle.least_walk.specs.Queues.{most_steps};
ghost use Rattle.word_image.specs.LocalRules.{most_states};
ghost use Rattle.word_image.specs.Graphs.{pair_count};
ghost use Rattle.word_image.specs.MarkedPairs.{marked, most_marked_pairs};
ghost use Rattle.search_laws.specs.PairWalks.{PairWalk, IsLeastWalkTo, uncode};
ghost use Rattle.least_walk.specs.declared.queue.Reached.{Reached};
ghost use Rattle.least_walk.specs.Trees.{AreApart, IsPairIndex};

use crate::breadth_first::{Ends, search};
use crate::queue::{MOST_MARKED_PAIRS, Queue, Reached};
use crate::walker::{MOST_STEPS, spell};
use pair_graph::Pairs;
use short_words::ShortWord;
use std::marker::Model;
use word_image::Rule;

/// The least walks of at most `most` steps from one marked pair to all others. One search finds all of them, and they
/// are stored as the queue of this search, which stands in another place. Contracts treat the tree as the rule, the number of the marked pair at the
/// start, `most`, and the numbers of the marked pairs that the walks reach.
#[derive(Debug, Drop)]
pub struct WalkTree<'q> {
    // The rule of the marked graph.
    rule: Rule,
    // The number of the marked pair at which the walks start.
    start: u16,
    // The greatest number of steps of a walk.
    most: usize,
    // The marked pairs to which the walks lead, in the order of the walks.
    queue: &'q Queue,
    // For each marked pair its place in the queue. If a marked pair isn't in the queue, its entry has no meaning.
    places: [u16; MOST_MARKED_PAIRS],
}

impl<'q> Model for WalkTree<'q> {
    ghost use Rattle.least_walk.specs.Trees.{LeastWalks, IsWalkTree, pairs_of};

    ghost Value = { LeastWalks };

    ghost view = { λ t. record { source = record { rule = t.rule; start = t.start; most = t.most }; reached = pairs_of t.queue.now } };

    ghost invariant = { λ t. IsWalkTree t.rule t.start t.most t.queue.now t.places };
}

impl<'q> WalkTree<'q> {
    /// Finds the least walks from this marked pair to all others. What the queue had before is gone.
    pub fn of(queue: &'q mut Queue, pairs: &Pairs, start: u16) -> WalkTree<'q>
        requires { start < 2 * pair_count pairs.now }
        ensures { result.source ≡ record { rule = pairs.now; start = start; most = most_steps } }
    {
        WalkTree::limited(queue, pairs, start, MOST_STEPS)
    }

    /// Finds the least walks of at most `most` steps from this marked pair to all others. What the queue had before is
    /// gone.
    pub fn limited(queue: &'q mut Queue, pairs: &Pairs, start: u16, most: usize) -> WalkTree<'q>
        requires { start < 2 * pair_count pairs.now }
        ensures { result.source ≡ record { rule = pairs.now; start = start; most = most } }
    {
        let ends = Ends { start, goal: None };
        search(queue, pairs, ends, most);
        let places = index(queue.as_slice());
        WalkTree {
            rule: *pairs.rule(),
            start,
            most,
            queue,
            places,
        }
    }

    /// Returns the number of marked pairs that the walks reach, at most 512.
    pub fn len(&self) -> usize
        ensures len { result ≡ length self.now.reached }
        ensures most { result ≤ most_marked_pairs }
        ensures below { All (λ t. t < 2 * pair_count self.now.source.rule) self.now.reached }
        ensures all { most_steps ≤ self.now.source.most → (w : List (ℕ × ℕ)) (t : ℕ) → PairWalk (marked self.now.source.rule) self.now.source.rule.states self.now.source.start w t → Contains self.now.reached t }
    {
        self.queue.len()
    }

    /// Returns the number of a marked pair that the walks reach. The marked pairs are in the order of their least
    /// walks, and `place` is the place of this one.
    pub fn pair(&self, place: usize) -> u16
        requires { place < length self.now.reached }
        ensures { result ≡ slice_index self.now.reached place }
    {
        self.queue.at(place).pair
    }

    /// Returns the number of steps of the least walk to a marked pair, or None if every walk has more steps than the
    /// limit allows.
    pub fn steps_to(&self, to: u16) -> Option<usize>
        requires { to < 2 * pair_count self.now.source.rule }
        ensures steps { IfSome result (λ n. (w : List (ℕ × ℕ)) × IsLeastWalkTo (marked self.now.source.rule) self.now.source.rule.states self.now.source.start to w × (length w ≡ n)) }
        ensures within { IfSome result (λ n. n ≤ self.now.source.most) }
        ensures none { IfNone result ((w : List (ℕ × ℕ)) → length w ≤ self.now.source.most → ¬ PairWalk (marked self.now.source.rule) self.now.source.rule.states self.now.source.start w to) }
        ensures all { IfNone result (most_steps ≤ self.now.source.most → (w : List (ℕ × ℕ)) → ¬ PairWalk (marked self.now.source.rule) self.now.source.rule.states self.now.source.start w to) }
    {
        let place = place_of(self.queue.as_slice(), &self.places, to)?;
        Some(usize::from(self.queue.at(usize::from(place)).depth))
    }

    /// Returns the least walk to a marked pair: the shortest, and among the shortest the first in the dictionary
    /// order of their pairs of letters. The least walk to the start has no steps. Returns None if every walk has more
    /// steps than the limit allows. A limit of [`MOST_STEPS`] or more excludes no walk.
    pub fn walk_to(&self, to: u16) -> Option<ShortWord>
        requires { to < 2 * pair_count self.now.source.rule }
        ensures walk { MatchOption result ((w : List (ℕ × ℕ)) → length w ≤ self.now.source.most → ¬ PairWalk (marked self.now.source.rule) self.now.source.rule.states self.now.source.start w to) (λ steps. IsLeastWalkTo (marked self.now.source.rule) self.now.source.rule.states self.now.source.start to (map (uncode most_states) steps)) }
        ensures within { IfSome result (λ steps. length steps ≤ self.now.source.most) }
        ensures most { IfSome result (λ steps. length steps ≤ most_steps) }
        ensures all { IfNone result (most_steps ≤ self.now.source.most → (w : List (ℕ × ℕ)) → ¬ PairWalk (marked self.now.source.rule) self.now.source.rule.states self.now.source.start w to) }
    {
        let place = place_of(self.queue.as_slice(), &self.places, to)?;
        let mut steps = ShortWord::new();
        spell(self.queue.as_slice(), place, &mut steps);
        Some(steps)
    }
}

/// Returns for each marked pair its place in the queue. The entry of a marked pair that isn't in the queue has no
/// meaning.
fn index(queue: &[Reached]) -> [u16; MOST_MARKED_PAIRS]
    requires { AreApart queue.now }
    ensures { IsPairIndex queue.now result }
{
    let mut places = [0; MOST_MARKED_PAIRS];
    for i in 0..queue.len() {
        places[usize::from(queue[i].pair)] = i as u16;
    }
    places
}

/// Returns the place of a marked pair in the queue, or None if it isn't there.
fn place_of(queue: &[Reached], places: &[u16; MOST_MARKED_PAIRS], to: u16) -> Option<u16>
    requires pair { to < most_marked_pairs }
    requires index { IsPairIndex queue.now places.now }
    ensures found { IfSome result (λ i. (x : Reached) × (slice_get queue.now i ≡ Some x) × (x.pair ≡ to)) }
    ensures none { IfNone result ((i : ℕ) (x : Reached) → slice_get queue.now i ≡ Some x → ¬ (x.pair ≡ to)) }
{
    let place = places[usize::from(to)];
    let reached = queue.get(usize::from(place))?;
    if reached.pair == to {
        Some(place)
    } else {
        None
    }
}
