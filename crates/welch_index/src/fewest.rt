//! The search for the least word with the fewest last nodes, or with the fewest first nodes.
//!
//! The set of a word consists of the last m - 1 letters of its preimages. A search goes through the sets in the order of
//! their least words. Under a surjective rule no set is empty, so a set of one node is a smallest one. Then the search
//! ends there, and mostly many sets come later.

ghost use Rattle.std.specs.Prelude.{◌≡◌, ◌≤◌, ◌<◌, ◌-◌, [], length, vec_capacity, reverse, IfOk, IsBitSet};
ghost use Rattle.word_image.specs.LocalRules.{IsRule, node_count, value, word_of};
ghost use Rattle.word_image.specs.Words.{IsSurjective};
ghost use Rattle.word_image.specs.Graphs.{IsNodeSet};
ghost use Rattle.welch_index.specs.Fewest.{IsFewestLast, IsFewestOn};

use debruijn::Graph;
use eden_law::is_surjective;
use image_subsets::{MOST_SETS, Smallest};
use std::alloc::{AllocError, Global};
use std::marker::Model;
use word_image::{Rule, Side, letter_of, value_by};

/// The fewest nodes that a word has on a side.
#[derive(Clone, Copy, Debug, PartialEq, Eq)]
pub struct Fewest {
    /// How many nodes there are, from 0 to 16.
    pub count: u8,
    /// The set of these nodes: bit u stands for node u.
    pub nodes: u16,
}

/// A search for the least word with the fewest nodes on a side. Contracts treat a search as the word that its last run
/// found. `new` allocates all memory, less than 1 MB.
///
/// A run takes time **O(s k + N^3 k)** for s sets and N nodes. It ends at a set of one node if the rule is surjective, and
/// otherwise at the empty set. If it finds no such set, s is at most 2^N.
#[derive(Debug, Drop)]
pub struct Search {
    // The search through the sets.
    sets: Smallest,
    // The word that the last run found.
    word: Vec<u8>,
}

impl Model for Search {
    ghost use Rattle.std.specs.Prelude.{List, ℕ, ◌≤◌, vec_capacity};
    ghost use Rattle.image_subsets.specs.declared.masks.TheConstants.{MOST_SETS};

    ghost Value = { List ℕ };

    ghost view = { λ s. s.word.items };

    ghost invariant = { λ s. MOST_SETS ≤ vec_capacity s.word };
}

impl Search {
    /// Allocates the memory of a search. Its word is empty until the search runs. The only error is lack of memory.
    pub fn new(alloc: Global) -> Result<Search, AllocError>
        ensures { IfOk result (λ search. search ≡ []) }
    {
        Ok(Search {
            sets: Smallest::new(alloc)?,
            word: Vec::with_capacity(alloc, MOST_SETS)?,
        })
    }

    /// Finds the fewest last nodes that a word has under this rule, and the least word that has so few. On the left:
    /// the fewest first nodes, and the word that is least if words are read from right to left. The result doesn't
    /// depend on earlier runs.
    pub fn run(&mut self, rule: &Rule, side: Side) -> Fewest
        ensures fewest { IsFewestOn side rule.now result.count result.nodes self.new }
        ensures short { length self.new ≤ 65535 }
    {
        match side {
            Side::Right => self.run_over(&Graph::of(rule)),
            Side::Left => {
                let mirrored = self.run_over(&Graph::of(&rule.reflect()));
                self.word.reverse();
                Fewest {
                    count: mirrored.count,
                    nodes: mirrored_nodes(rule, mirrored.nodes),
                }
            }
        }
    }

    /// Returns the word that the last run found. It has at most 65,535 letters.
    pub fn word(&self) -> &[u8]
        ensures { result.now ≡ self.now }
    {
        &self.word
    }

    /// Finds the fewest last nodes that a word has under the rule of this graph, and the least word that has so few.
    fn run_over(&mut self, graph: &Graph) -> Fewest
        ensures fewest { IsFewestLast graph.now result.count result.nodes self.new }
        ensures short { length self.new ≤ 65535 }
    {
        self.word.clear();
        let nodes = self
            .sets
            .find(graph, fewest_possible(graph), &mut self.word);
        Fewest {
            count: nodes.count_ones() as u8,
            nodes,
        }
    }
}

/// Returns a number of nodes that no word goes below: 1 if the rule is surjective, and otherwise 0.
fn fewest_possible(graph: &Graph) -> u32
    ensures most { result ≤ 1 }
    ensures surjective { 0 < result → IsSurjective graph.now }
{
    if is_surjective(graph) { 1 } else { 0 }
}

/// Returns the nodes whose mirrored nodes are in the set. The mirrored node has the letters of the node in reverse order.
fn mirrored_nodes(rule: &Rule, set: u16) -> u16
    ensures nodes { IsNodeSet rule.now (λ u. IsBitSet set (value rule.now.states (reverse (word_of rule.now.states (rule.now.width - 1) u)))) result }
    ensures rule { IsRule rule.now }
{
    let mut nodes = 0;
    for u in 0..rule.nodes() {
        if set >> mirrored_node(rule, u) & 1 == 1 {
            nodes |= 1u16 << u;
        }
    }
    nodes
}

/// Returns the node with the letters of this node in reverse order.
fn mirrored_node(rule: &Rule, node: u8) -> u16
    requires { node < node_count rule.now }
    ensures value { result ≡ value rule.now.states (reverse (word_of rule.now.states (rule.now.width - 1) node)) }
    ensures below { result < node_count rule.now }
{
    let (k, last) = (rule.k(), rule.m() - 1);
    value_by(
        k,
        last,
        |place| letter_of(k, last, u16::from(node), last - 1 - place),
    )
}
