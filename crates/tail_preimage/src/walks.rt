//! The type `WalkRoom`, which finds the first walk from a node into a set of nodes whose labels spell a word. The first
//! walk is the first in the dictionary order of the walks' letters.

ghost use Rattle.std.specs.Prelude.{◌≡◌, ◌≢◌, ◌-◌, ◌^◌, ◌<◌, ◌≤◌, [], length, vec_capacity, IfOk, IsBitSet};
ghost use Rattle.std.specs.List.{repeat};
ghost use Rattle.word_image.specs.LocalRules.{IsWord, word_of, node_count, most_nodes};
ghost use Rattle.tail_config.specs.TailValues.{IsAcceptedTail};
ghost use Rattle.tail_preimage.specs.Preimages.{stretch};
ghost use Rattle.tail_preimage.specs.Walks.{HasWalk, Reaches, IsLeastWalkInto};
ghost use Rattle.tail_preimage.specs.Relations.{IsFirst};
ghost use Rattle.tail_preimage.specs.FirstWalks.{AreOpen};
ghost use Rattle.tail_preimage.specs.Lengths.{most_part, most_stretch, most_walk};

use crate::relations::{edges, sources};
use crate::words::{append, append_copies};
use debruijn::Graph;
use std::alloc::{AllocError, Global};
use std::marker::Model;
use tail_config::LentTail;
use word_image::Rule;

/// The greatest number of letters in a word along which a walk is sought: 16 left periods, a middle and 16 right
/// periods, with 1,024 letters each.
pub const MOST_STRETCH: usize = 33_792;

/// The greatest number of letters in a walk along such a word. Its last node has at most 4 letters more.
pub const MOST_WALK: usize = 33_796;

/// A word, and the memory for the search of walks along it. In contracts it is the word.
#[derive(Debug, Drop)]
pub struct WalkRoom {
    // The word, with capacity for the longest stretch.
    word: Vec<u8>,
    // The sets of nodes of the last search, with capacity for one set more than the longest stretch has letters.
    sets: Vec<u16>,
}

impl Model for WalkRoom {
    ghost use Rattle.std.specs.Prelude.{ℕ, ◌<◌, ◌≤◌, List, length, vec_capacity};
    ghost use Rattle.tail_preimage.specs.Lengths.{most_stretch};

    ghost Value = { List ℕ };

    ghost view = { λ r. r.word.items };

    ghost invariant = { λ r. (length r.word.items ≤ most_stretch) × (most_stretch ≤ vec_capacity r.word) × (most_stretch < vec_capacity r.sets) };
}

impl WalkRoom {
    /// Allocates the memory of all searches. The word is empty. The only error is lack of memory.
    pub fn new(alloc: Global) -> Result<WalkRoom, AllocError>
        ensures { IfOk result (λ room. room ≡ []) }
    {
        Ok(WalkRoom {
            word: Vec::with_capacity(alloc, MOST_STRETCH)?,
            sets: Vec::with_capacity(alloc, MOST_STRETCH + 1)?,
        })
    }

    /// Returns the word.
    pub fn word(&self) -> &[u8]
        ensures { result.now ≡ self.now }
    {
        &self.word
    }

    /// Takes n copies of a part as the word. The number n is at most 16.
    pub fn set_copies(&mut self, part: &[u8], n: u8)
        requires part { length part.now ≤ most_part }
        requires few { n ≤ most_nodes }
        ensures { self.new ≡ repeat n part.now }
    {
        self.word.clear();
        append_copies(&mut self.word, part, n);
    }

    /// Takes `left` left periods, the middle and `right` right periods of a configuration as the word. Both numbers
    /// are at most 16.
    pub fn set_stretch(&mut self, tail: &LentTail, left: u8, right: u8)
        requires left { left ≤ most_nodes }
        requires right { right ≤ most_nodes }
        ensures word { self.new ≡ stretch tail.now.config left right }
        ensures tail { IsAcceptedTail tail.now }
    {
        self.word.clear();
        append_copies(&mut self.word, tail.left(), left);
        append(&mut self.word, tail.middle());
        append_copies(&mut self.word, tail.right(), right);
    }

    /// Writes the letters of the first walk, in dictionary order, from the node `start` to a node of the set `goal`
    /// whose labels spell the word. Returns the node at its end. There must be such a walk.
    pub fn least_walk(&mut self, graph: &Graph, start: u8, goal: u16, walk: &mut Vec<u8>) -> u8
        requires start { start < node_count graph.now }
        requires word { IsWord graph.now.states self.old }
        requires goal { goal < 2 ^ node_count graph.now }
        requires reach { Reaches graph.now self.old goal start }
        requires capacity { most_walk ≤ vec_capacity walk.old }
        ensures walk { IsLeastWalkInto graph.now self.old start goal result walk.new.items }
        ensures word { self.new ≡ self.old }
        ensures capacity { vec_capacity walk.new ≡ vec_capacity walk.old }
    {
        write_open_sets(graph, &self.word, goal, &mut self.sets);
        let word = self.word.as_slice();
        let sets = self.sets.as_slice();
        let rule = graph.rule();
        let last = rule.m() - 2;
        write_node(rule, start, walk);
        let mut node = start;
        for n in 0..word.len() {
            node = least_node(graph.ends(node, word[n]) & sets[word.len() - 1 - n]);
            // The edges of a node lead to nodes in the order of their letters. Each letter is the last letter of the
            // node at the end.
            walk.push_reserved(rule.node_letter(node, last));
        }
        node
    }

    /// Of the walks from `node` back to `node` whose labels spell n copies of the word `part`, takes the first in dictionary
    /// order, and writes its letters. The number n is at most 16, and there must be such a walk.
    pub fn first_loop(&mut self, graph: &Graph, part: &[u8], n: u8, node: u8, walk: &mut Vec<u8>)
        requires part { length part.now ≤ most_part }
        requires few { n ≤ most_nodes }
        requires word { IsWord graph.now.states part.now }
        requires node { node < node_count graph.now }
        requires turn { HasWalk graph.now (repeat n part.now) node node }
        requires capacity { most_walk ≤ vec_capacity walk.old }
        ensures walk { IsLeastWalkInto graph.now (repeat n part.now) node (2 ^ node) node walk.new.items }
        ensures capacity { vec_capacity walk.new ≡ vec_capacity walk.old }
    {
        prove!(graph.nodes() <= 16);
        self.set_copies(part, n);
        let _end = self.least_walk(graph, node, 1u16 << node, walk);
    }
}

/// Returns the least node of a set that isn't empty.
pub fn least_node(set: u16) -> u8
    requires { set ≢ 0 }
    ensures { IsFirst (IsBitSet set) result }
{
    set.trailing_zeros() as u8
}

/// Writes a set of nodes for each place of the word, and one for its end. A node is in the set of a place if some walk
/// leads from it to a node of the goal, and the labels of the walk spell the rest of the word. The sets are in order
/// from the end of the word to its start.
fn write_open_sets(graph: &Graph, word: &[u8], goal: u16, sets: &mut Vec<u16>)
    requires word { IsWord graph.now.states word.now }
    requires goal { goal < 2 ^ node_count graph.now }
    requires capacity { length word.now < vec_capacity sets.old }
    ensures sets { AreOpen graph.now word.now goal (length word.now) sets.new.items }
    ensures capacity { vec_capacity sets.new ≡ vec_capacity sets.old }
{
    sets.clear();
    sets.push_reserved(goal);
    for n in 0..word.len() {
        let set = sources(graph, &edges(graph, word[word.len() - 1 - n]), sets[n]);
        sets.push_reserved(set);
    }
}

/// Writes the m - 1 letters of a node into a list that has capacity for 4 letters.
fn write_node(rule: &Rule, u: u8, word: &mut Vec<u8>)
    requires node { u < node_count rule.now }
    requires capacity { 4 ≤ vec_capacity word.old }
    ensures word { word.new.items ≡ word_of rule.now.states (rule.now.width - 1) u }
    ensures capacity { vec_capacity word.new ≡ vec_capacity word.old }
{
    word.clear();
    for place in 0..rule.m() - 1 {
        word.push_reserved(rule.node_letter(u, place));
    }
}
