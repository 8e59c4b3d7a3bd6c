//! The type `PreimageRoom`, which finds a placed configuration, or a gap, in memory that it allocates once.

ghost use Rattle.std.specs.Prelude.{◌≡◌, ◌-◌, ◌+◌, ◌≤◌, ◌↔◌, IsTrue, length, pos, ◌-ℤ◌, ◌*◌};
ghost use Rattle.word_image.specs.LocalRules.{most_nodes};
ghost use Rattle.word_image.specs.Graphs.{IsNodeSet};
ghost use Rattle.tail_preimage.specs.Preimages.{PlacedConfig, MapsTo, IsFrom};
ghost use Rattle.tail_preimage.specs.Answers.{IsPreimageAnswer, IsShortAnswer, is_from, placed_config, placed_of_lent, pre_of};
ghost use Rattle.tail_preimage.specs.Walks.{before_last};
ghost use Rattle.tail_preimage.specs.Parts.{AreTailParts, HaveParts, IsFirstShape, Starts, shape_of};
ghost use Rattle.tail_preimage.specs.declared.answer.Pre.{Pre};

use crate::answer::{LentPlaced, LentPre};
use crate::gaps::first_gap;
use crate::periods::{loops, rounds};
use crate::relations::sources;
use crate::shapes::{PartRelations, Spans, first_shape, parts_of};
use crate::walks::{MOST_WALK, WalkRoom, least_node};
use debruijn::Graph;
use std::alloc::{AllocError, Global};
use std::marker::Model;
use tail_config::LentTail;
use word_image::Rule;

/// The memory of searches for preimages, which is allocated once: some 200 kilobytes. Contracts say nothing about its
/// contents, because no result depends on an earlier search.
#[derive(Debug, Drop)]
pub struct PreimageRoom {
    // The memory for the search of a walk, with the word of the last walk, or of the last gap.
    search: WalkRoom,
    // The last walk along left periods, with capacity for the longest walk, as the next two.
    left: Vec<u8>,
    // The last walk from the left periods to the right periods.
    middle: Vec<u8>,
    // The last walk along right periods.
    right: Vec<u8>,
}

impl Model for PreimageRoom {
    ghost use Rattle.std.specs.Prelude.{⊤, ◌≤◌, vec_capacity};
    ghost use Rattle.tail_preimage.specs.Lengths.{most_walk};

    ghost Value = { ⊤ };

    ghost view = { λ r. tt };

    ghost invariant = { λ r. (most_walk ≤ vec_capacity r.left) × (most_walk ≤ vec_capacity r.middle) × (most_walk ≤ vec_capacity r.right) };
}

impl PreimageRoom {
    /// Allocates the memory of all searches. The only error is lack of memory.
    pub fn new(alloc: Global) -> Result<PreimageRoom, AllocError> {
        Ok(PreimageRoom {
            search: WalkRoom::new(alloc)?,
            left: Vec::with_capacity(alloc, MOST_WALK)?,
            middle: Vec::with_capacity(alloc, MOST_WALK)?,
            right: Vec::with_capacity(alloc, MOST_WALK)?,
        })
    }

    /// Returns what `preimage` returns: the first placed configuration that the rule maps to the given configuration.
    /// If there is none, returns the first stretch of the given configuration that is an orphan.
    pub fn preimage(&mut self, rule: &Rule, tail: &LentTail) -> LentPre<'_>
        requires { rule.now.states ≡ tail.now.states }
        ensures answer { IsPreimageAnswer rule.now tail.now.config (pre_of result) }
        ensures only { (other : Pre) → IsPreimageAnswer rule.now tail.now.config other → other ≡ pre_of result }
        ensures exactly { IsTrue (is_from (pre_of result)) ↔ ((p : PlacedConfig) × MapsTo rule.now p tail.now.config) }
        ensures short { IsShortAnswer (pre_of result) }
    {
        let graph = Graph::of(rule);
        let parts = parts_of(&graph, tail);
        if let Some((left, right)) = first_gap(&graph, &parts) {
            self.search.set_stretch(tail, left, right);
            return LentPre::Gap {
                before: u16::from(left),
                after: u16::from(right),
                word: self.search.word(),
            };
        }
        let spans = first_shape(&graph, &parts);
        LentPre::From(self.first_placed(&graph, tail, &parts, spans))
    }

    /// Returns the first placed configuration with the shape `spans`, which is the first possible shape. The first one
    /// has the first letters in dictionary order.
    fn first_placed(
        &mut self,
        graph: &Graph,
        tail: &LentTail,
        parts: &PartRelations,
        spans: Spans,
    ) -> LentPlaced<'_>
        requires one_k { graph.now.states ≡ tail.now.states }
        requires parts { AreTailParts graph.now tail.now.config parts.now }
        requires shape { IsFirstShape graph.now parts.now (shape_of spans) }
        ensures { IsFrom graph.now tail.now.config (placed_config (placed_of_lent result)) }
    {
        let start = least_node(starts(graph, parts, spans));
        let turns = loops(graph, &parts.right, spans.on);
        let search = &mut self.search;
        search.first_loop(graph, tail.left(), spans.back, start, &mut self.left);
        search.set_stretch(tail, spans.before, spans.after);
        let end = search.least_walk(graph, start, turns, &mut self.middle);
        search.first_loop(graph, tail.right(), spans.on, end, &mut self.right);
        LentPlaced {
            at: place_of(graph, tail, spans.before),
            left: without_node(graph, &self.left),
            middle: without_node(graph, &self.middle),
            right: without_node(graph, &self.right),
        }
    }
}

/// Returns the nodes at which the middle of a placed configuration with this shape can begin. Such a node has a loop of
/// `spans.back` left periods. From it a walk along `spans.before` left periods, the middle and `spans.after` right
/// periods leads to a node with a loop of `spans.on` right periods.
fn starts(graph: &Graph, parts: &PartRelations, spans: Spans) -> u16
    requires left { spans.back + spans.before ≤ most_nodes }
    requires right { spans.on + spans.after ≤ most_nodes }
    requires parts { HaveParts graph.now parts.now }
    ensures { IsNodeSet graph.now (Starts graph.now parts.now (shape_of spans)) result }
{
    let rears = sources(
        graph,
        &parts.middle,
        rounds(graph, &parts.right, spans.after, spans.on),
    );
    let lefts = graph.union_of_rows(&parts.left.powers[usize::from(spans.before)], rears);
    loops(graph, &parts.left, spans.back) & lefts
}

/// Returns the place at which the middle of a placed configuration begins. `periods` is the number of left periods of
/// the given configuration that this middle spans.
fn place_of(graph: &Graph, tail: &LentTail, periods: u8) -> i64
    ensures { result ≡ graph.now.offset -ℤ pos (periods * length tail.now.config.left) }
{
    let letters = u32::from(periods) * tail.left().len() as u32;
    i64::from(graph.rule().o()) - i64::from(letters)
}

/// Returns a walk without its last m - 1 letters, which are the letters of its last node.
fn without_node<'w>(graph: &Graph, walk: &'w [u8]) -> &'w [u8]
    ensures { result.now ≡ before_last graph.now walk.now }
{
    &walk[..walk.len().saturating_sub(usize::from(graph.rule().m() - 1))]
}
