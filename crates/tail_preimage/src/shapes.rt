//! The function `first_shape`, which finds the first shape that a placed configuration can have.
//!
//! A placed configuration has a left period, a middle and a right period, and the middle begins at any place. The rule
//! maps it to a given configuration. Its shape says how many periods of the given configuration its parts span.

ghost use Rattle.std.specs.Prelude.{◌≡◌};
ghost use Rattle.word_image.specs.LocalRules.{most_nodes};
ghost use Rattle.tail_config.specs.TailValues.{IsAcceptedTail};
ghost use Rattle.tail_preimage.specs.Parts.{AreTailParts, HaveParts, PassesThrough, IsFirstShape, shape_of};

use crate::periods::{Periods, least_first, least_sum, open, periods_of, rounds, some_rounds};
use crate::relations::{Relation, relation, reversed, sources};
use debruijn::Graph;
use tail_config::LentTail;
use word_image::MOST_NODES;

/// The relations of the parts of the given configuration. A relation says from which nodes to which nodes walks lead
/// whose labels spell the part.
#[derive(Clone, Copy)]
pub struct PartRelations {
    /// The relations of the left periods, from the node at the end of a period to the node at its start.
    pub left: Periods,
    /// The relation of the middle, from the node at its start to the node at its end.
    pub middle: Relation,
    /// The relations of the right periods, from the node at the start of a period to the node at its end.
    pub right: Periods,
}

/// A shape: how many left and right periods of the given configuration the parts of a placed configuration span. Its
/// middle also spans the given middle.
#[derive(Clone, Copy)]
pub struct Spans {
    /// The number of given left periods in the middle of the placed configuration.
    pub before: u8,
    /// The number of given left periods in the left period of the placed configuration.
    pub back: u8,
    /// The number of given right periods in the middle of the placed configuration.
    pub after: u8,
    /// The number of given right periods in the right period of the placed configuration.
    pub on: u8,
}

/// Returns the relations of the parts of this configuration.
pub fn parts_of(graph: &Graph, tail: &LentTail) -> PartRelations
    requires { graph.now.states ≡ tail.now.states }
    ensures parts { AreTailParts graph.now tail.now.config result }
    ensures tail { IsAcceptedTail tail.now }
{
    PartRelations {
        left: periods_of(graph, reversed(graph, &relation(graph, tail.left()))),
        middle: relation(graph, tail.middle()),
        right: periods_of(graph, relation(graph, tail.right())),
    }
}

/// Returns the first shape that a placed configuration can have: the fewest left periods in total, then the fewest
/// right periods in total, then the fewest left and then the fewest right periods in its middle. There must be a walk
/// along 16 left periods, the middle and 16 right periods.
pub fn first_shape(graph: &Graph, parts: &PartRelations) -> Spans
    requires parts { HaveParts graph.now parts.now }
    requires some { PassesThrough graph.now parts.now most_nodes most_nodes }
    ensures { IsFirstShape graph.now parts.now (shape_of result) }
{
    let rears = sources(
        graph,
        &parts.middle,
        open(graph, &parts.right, MOST_NODES as u8),
    );
    let left = least_sum(graph, &parts.left, rears);
    let fronts = graph.union_of_rows(&parts.middle, some_rounds(graph, &parts.left, left));
    let right = least_sum(graph, &parts.right, fronts);

    let rears = sources(
        graph,
        &parts.middle,
        some_rounds(graph, &parts.right, right),
    );
    let first = least_first(graph, &parts.left, left, rears);
    let fronts = graph.union_of_rows(
        &parts.middle,
        rounds(graph, &parts.left, first, left - first),
    );
    let second = least_first(graph, &parts.right, right, fronts);
    Spans {
        before: first,
        back: left - first,
        after: second,
        on: right - second,
    }
}
