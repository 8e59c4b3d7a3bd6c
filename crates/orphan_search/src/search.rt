//! The search for the least orphan, with its verdict and its evidence.
//!
//! An orphan is a word without a preimage. The set of a word consists of the last nodes of its preimages, which are the
//! last m - 1 letters of these words. The family of a rule lists the different sets in the order of their least words,
//! up to and including the empty set if there is one. If no set is empty, the cover list has the set of all nodes and
//! each other set that contains no other set of the family.

ghost use Rattle.std.specs.Prelude.{◌≡◌, ◌≤◌, ◌<◌, ◌↔◌, [], length, Contains, slice_index, vec_capacity, IfOk};

use debruijn::Graph;
use image_subsets::{Family, MOST_SETS};
use std::alloc::{AllocError, Global};
use std::marker::Model;
use word_image::Rule;

/// The verdict of a run: whether the rule is surjective.
#[derive(Clone, Copy, Debug, PartialEq, Eq)]
pub enum Outcome {
    /// The rule is surjective: every word has a preimage.
    Closed,
    /// The rule isn't surjective: some word has no preimage.
    Orphan,
}

/// A search for the least orphan by the subset construction: breadth first through the sets of last nodes, with letters
/// ascending. Contracts treat a search as the results of its last run. `new` allocates all memory.
///
/// A run takes time **O(s k)** for s sets, and **O(N 2^N)** more for a cover list. If there are N nodes, s is at most
/// 2^N, so at most 65,536.
#[derive(Debug, Drop)]
pub struct Search {
    // The family of the last run.
    family: Family,
    // The least orphan of the last run, or nothing if there was none. It has fewer letters than the family has sets.
    word: Vec<u8>,
    // The cover list of the last run, or nothing if there was an orphan.
    cover: Vec<u16>,
    // Whether the last run found no empty set.
    closed: bool,
}

impl Model for Search {
    ghost use Rattle.std.specs.Prelude.{◌≤◌, [], vec_capacity, if◌then◌else◌};
    ghost use Rattle.image_subsets.specs.declared.masks.TheConstants.{MOST_SETS};
    ghost use Rattle.orphan_search.specs.Verdicts.{Searched};

    ghost Value = { Searched };

    ghost view = { λ s. record { word = s.word.items; sets = if s.closed then s.family.sets else []; cover = s.cover.items } };

    ghost invariant = { λ s. (MOST_SETS ≤ vec_capacity s.word) × (MOST_SETS ≤ vec_capacity s.cover) };
}

impl Search {
    ghost use Rattle.word_image.specs.Words.{IsSurjective};
    ghost use Rattle.orphan_search.specs.Verdicts.{IsNothing, IsVerdict};

    /// Allocates the memory of a search. Until the search runs, its word, its sets and its cover list are empty. The
    /// only error is lack of memory.
    pub fn new(alloc: Global) -> Result<Search, AllocError>
        ensures { IfOk result IsNothing }
    {
        Ok(Search {
            family: Family::new(alloc)?,
            word: Vec::with_capacity(alloc, MOST_SETS)?,
            cover: Vec::with_capacity(alloc, MOST_SETS)?,
            closed: false,
        })
    }

    /// Decides whether every word has a preimage under this rule. The result doesn't depend on earlier runs.
    pub fn run(&mut self, rule: &Rule) -> Outcome
        ensures verdict { IsVerdict rule.now result self.new }
        ensures exactly { (result ≡ Outcome.Closed) ↔ IsSurjective rule.now }
    {
        self.run_over(&Graph::of(rule))
    }

    /// Decides whether every word has a preimage under the rule of this graph. The result doesn't depend on earlier
    /// runs.
    pub fn run_over(&mut self, graph: &Graph) -> Outcome
        ensures verdict { IsVerdict graph.now result self.new }
        ensures exactly { (result ≡ Outcome.Closed) ↔ IsSurjective graph.now }
    {
        self.word.clear();
        self.cover.clear();
        self.family.explore(graph);
        let last = self.family.len() - 1;
        self.closed = self.family.set(last) != 0;
        if self.closed {
            write_cover(&self.family, &mut self.cover);
            return Outcome::Closed;
        }
        self.family.write_word(last, &mut self.word);
        Outcome::Orphan
    }

    /// Returns the least orphan, in the order of words, if the last run returned `Orphan`. It has at most 65,535
    /// letters. Otherwise returns an empty list.
    pub fn word(&self) -> &[u8]
        ensures { result.now ≡ self.now.word }
    {
        &self.word
    }

    /// Returns the family of the rule in its order if the last run returned `Closed`. Otherwise returns an empty
    /// list.
    pub fn sets(&self) -> &[u16]
        ensures { result.now ≡ self.now.sets }
    {
        if self.closed { self.family.sets() } else { &[] }
    }

    /// Returns the cover list of the rule if the last run returned `Closed`, and otherwise an empty list. The cover
    /// list begins with the set of all nodes. Then come the other sets of the family that contain no other set of the
    /// family. They are in the order of the family.
    pub fn cover(&self) -> &[u16]
        ensures { result.now ≡ self.now.cover }
    {
        &self.cover
    }
}

ghost use Rattle.word_image.specs.Families.{covers_of};

/// Writes the cover list of a family without an empty set. The cover list begins with the first set of the family,
/// which has all nodes. Then come the other sets of the family that contain no other set of the family.
fn write_cover(family: &Family, cover: &mut Vec<u16>)
    requires some { 0 < length family.now.sets }
    requires nonempty { ¬ Contains family.now.sets 0 }
    requires empty { cover.old.items ≡ [] }
    requires room { MOST_SETS ≤ vec_capacity cover.old }
    ensures cover { cover.new.items ≡ covers_of (slice_index family.now.sets 0) family.now.sets }
    ensures capacity { vec_capacity cover.new ≡ vec_capacity cover.old }
{
    cover.push_reserved(family.set(0));
    for place in 1..family.len() {
        if !family.minimal(place) {
            continue;
        }
        cover.push_reserved(family.set(place));
    }
}
