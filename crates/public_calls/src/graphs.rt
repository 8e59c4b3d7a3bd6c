//! Functions that call the public functions of `debruijn`, `image_subsets`, `orphan_search`, `image_minimal` and
//! `welch_index`.
//!
//! The family of a graph has the sets of nodes to which words lead from the set of all nodes. The cover list has the
//! set of all nodes, and each set of the family that contains no other set of the family.

ghost use Rattle.std.specs.Prelude.{◌<◌, ◌≤◌, ◌≡◌, Contains, [], length, vec_capacity, IfOk};
ghost use Rattle.word_image.specs.LocalRules.{node_count};

use debruijn::Graph;
use image_minimal::{Minimal, SepFault};
use image_subsets::Family;
use orphan_search::{Outcome, Search};
use std::alloc::{AllocError, Global};
use welch_index::{Degree, Fewest, degree_from_counts};
use word_image::{Rule, Side, Word};

/// Returns the de Bruijn graph of a rule twice, which shows that graphs can be copied.
pub fn graph(rule: &Rule) -> (Graph, Graph) {
    let graph = Graph::of(rule);
    (graph, graph)
}

/// Returns the number of letters of a graph, its number of nodes, and the set of all its nodes.
pub fn sizes(graph: &Graph) -> (u8, u8, u16) {
    (graph.k(), graph.nodes(), image_subsets::full(graph))
}

/// Returns the node to which the edge of node u with the letter a leads, the label of this edge, and the set of nodes
/// to which the edges of node u with the label a lead.
pub fn edges(graph: &Graph, u: u8, a: u8) -> (u8, u8, u16)
    requires node { u < node_count graph.now }
    requires letter { a < graph.now.states }
{
    (graph.next(u, a), graph.label(u, a), graph.ends(u, a))
}

/// Returns the set of nodes to which edges with the label a lead from a set of nodes.
pub fn step(graph: &Graph, set: u16, a: u8) -> u16
    requires { a < graph.now.states }
{
    image_subsets::step(graph, set, a)
}

/// Explores a graph, and returns its family of sets of nodes and the number of these sets.
pub fn family(alloc: Global, graph: &Graph) -> Result<(Family, u32), AllocError> {
    let mut family = Family::new(alloc)?;
    family.explore(graph);
    let count = family.len();
    Ok((family, count))
}

/// Returns the set at place `i` of a family. If a step leads to it from an earlier set, returns the place of this
/// earlier set and the label of the step, too.
pub fn found(family: &Family, i: u32) -> (u16, Option<(u32, u8)>)
    requires { i < length family.now.sets }
{
    (family.set(i), family.parent(i))
}

/// Returns whether the set at place `i` contains no other set of the family.
pub fn minimal(family: &Family, i: u32) -> bool
    requires place { i < length family.now.sets }
    requires nonempty { ¬ Contains family.now.sets 0 }
{
    family.minimal(i)
}

/// Writes the least word whose set is at place `i` of a family into an empty list.
pub fn least_word(family: &Family, i: u32, word: &mut Vec<u8>)
    requires set { i < length family.now.sets }
    requires empty { word.old.items ≡ [] }
    requires room { i ≤ vec_capacity word.old }
{
    family.write_word(i, word);
}

/// Searches for an orphan of a rule. Returns the search, and whether the rule is surjective.
pub fn search(alloc: Global, rule: &Rule) -> Result<(Search, bool), AllocError> {
    let mut search = Search::new(alloc)?;
    match search.run(rule) {
        Outcome::Closed => Ok((search, true)),
        Outcome::Orphan => Ok((search, false)),
    }
}

/// Returns what a search has found: the orphan, the sets of the family and the cover list.
pub fn evidence(search: &Search) -> (&[u8], &[u16], &[u16]) {
    (search.word(), search.sets(), search.cover())
}

/// Returns the least automaton of a rule, its number of classes, its class of the orphans, if any, and its number of
/// letters.
pub fn language(alloc: Global, rule: &Rule) -> Result<(Minimal, u32, Option<u32>, u8), AllocError> {
    let minimal = image_minimal::least(alloc, rule)?;
    let (count, dead, k) = (minimal.len(), minimal.dead(), minimal.k());
    Ok((minimal, count, dead, k))
}

/// Returns the least word that is an orphan of exactly one of two rules, or None if there is none.
pub fn separate(alloc: Global, first: &Rule, second: &Rule) -> Result<Option<Word>, SepFault> {
    image_minimal::separate(alloc, first, second)
}

/// Returns each kind of fault with which `separate` can fail.
pub fn separation_faults() -> [SepFault; 2] {
    [SepFault::States, SepFault::Memory(AllocError)]
}

/// Searches for the fewest last nodes and the fewest first nodes that a word has under a rule. Returns the search, the
/// length of the last word, and the degree of the rule with its multipliers, if the rule is surjective.
pub fn degree(
    alloc: Global,
    rule: &Rule,
) -> Result<(welch_index::Search, usize, Option<Degree>), AllocError> {
    let mut search = welch_index::Search::new(alloc)?;
    let right = search.run(rule, Side::Right);
    let left: Fewest = search.run(rule, Side::Left);
    let degree = degree_from_counts(rule, right.count, left.count);
    let letters = search.word().len();
    Ok((search, letters, degree))
}
