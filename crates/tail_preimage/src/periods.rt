//! The type `Periods`: walks along the periods on one side of a configuration, in the direction away from its middle.
//!
//! A walk along a word is a walk in the de Bruijn graph whose labels spell the word. A relation says from which nodes
//! to which nodes such walks lead. A loop is a walk from a node back to it.

ghost use Rattle.std.specs.Prelude.{◌≡◌, ◌-◌, ◌<◌, ◌≤◌, ℕ, IfSome, MatchOption};
ghost use Rattle.word_image.specs.LocalRules.{most_nodes};
ghost use Rattle.word_image.specs.Graphs.{IsNodeSet, AreSets, HasBit};
ghost use Rattle.tail_preimage.specs.Relations.{Steps, Open, Rounds, SomeRounds, IsFirst, Meets};
ghost use Rattle.tail_preimage.specs.Parts.{ArePeriods};

use crate::relations::{Relation, powers, returning, sources};
use debruijn::Graph;
use word_image::MOST_NODES;

/// The relation between nodes of one period, and the relations of 0 to 16 periods.
#[derive(Clone, Copy)]
pub struct Periods {
    /// The relation of one period. It relates node u to node v if a walk along one period leads from u to v.
    pub period: Relation,
    /// The relations of 0 to 16 periods, in this order.
    pub powers: [Relation; MOST_NODES + 1],
}

/// Returns the relations of 0 to 16 periods, from the relation of one period.
pub fn periods_of(graph: &Graph, period: Relation) -> Periods
    requires { AreSets graph.now period }
    ensures period { result.period ≡ period }
    ensures periods { ArePeriods graph.now result }
{
    Periods {
        period,
        powers: powers(graph, &period),
    }
}

/// Returns the set of the nodes from which a walk along n periods begins.
pub fn open(graph: &Graph, periods: &Periods, n: u8) -> u16
    requires few { n ≤ most_nodes }
    requires periods { ArePeriods graph.now periods.now }
    ensures { IsNodeSet graph.now (Open (HasBit periods.now.period) n) result }
{
    sources(graph, &periods.powers[usize::from(n)], graph.full())
}

/// Returns the set of the nodes from which a walk along n periods leads back to the same node.
pub fn loops(graph: &Graph, periods: &Periods, n: u8) -> u16
    requires few { n ≤ most_nodes }
    requires periods { ArePeriods graph.now periods.now }
    ensures { IsNodeSet graph.now (λ u. Steps (HasBit periods.now.period) n u u) result }
{
    returning(graph, &periods.powers[usize::from(n)])
}

/// Returns the set of the nodes from which a walk along n periods leads to a node with a loop of `on` periods.
pub fn rounds(graph: &Graph, periods: &Periods, n: u8, on: u8) -> u16
    requires n_few { n ≤ most_nodes }
    requires on_few { on ≤ most_nodes }
    requires periods { ArePeriods graph.now periods.now }
    ensures { IsNodeSet graph.now (Rounds (HasBit periods.now.period) n on) result }
{
    sources(
        graph,
        &periods.powers[usize::from(n)],
        loops(graph, periods, on),
    )
}

/// Returns the set of the nodes from which a walk along some number n of periods leads to a node with a loop of
/// `sum` - n periods. The number n is from 0 to `sum` - 1.
pub fn some_rounds(graph: &Graph, periods: &Periods, sum: u8) -> u16
    requires few { sum ≤ most_nodes }
    requires periods { ArePeriods graph.now periods.now }
    ensures { IsNodeSet graph.now (SomeRounds (HasBit periods.now.period) sum) result }
{
    let mut set = 0;
    for n in 0..sum {
        set |= rounds(graph, periods, n, sum - n);
    }
    set
}

/// Returns the least n for which no walk along n periods begins at a node of the set. Returns None if a walk along 16
/// periods begins at a node of the set.
pub fn least_closed(graph: &Graph, periods: &Periods, set: u16) -> Option<u8>
    requires periods { ArePeriods graph.now periods.now }
    ensures few { IfSome result (λ n. n ≤ most_nodes) }
    ensures first { MatchOption result (Meets graph.now (Open (HasBit periods.now.period) most_nodes) set)
        (IsFirst (λ n. ¬ Meets graph.now (Open (HasBit periods.now.period) n) set)) }
{
    for n in 0..17 {
        if open(graph, periods, n) & set == 0 {
            return Some(n);
        }
    }
    None
}

/// Returns the least sum, from 0 to 16, for which the result of `some_rounds` contains a node of the set. There must be
/// such a sum.
pub fn least_sum(graph: &Graph, periods: &Periods, set: u16) -> u8
    requires periods { ArePeriods graph.now periods.now }
    requires some { (sum : ℕ) × (sum ≤ most_nodes) × Meets graph.now (SomeRounds (HasBit periods.now.period) sum) set }
    ensures few { result ≤ most_nodes }
    ensures first { IsFirst (λ sum. Meets graph.now (SomeRounds (HasBit periods.now.period) sum) set) result }
{
    for sum in 0..17 {
        if some_rounds(graph, periods, sum) & set != 0 {
            return sum;
        }
    }
    unreachable!()
}

/// Returns the least n for which the result of `rounds` with n and `sum` - n contains a node of the set. There must be
/// such an n below `sum`.
pub fn least_first(graph: &Graph, periods: &Periods, sum: u8, set: u16) -> u8
    requires few { sum ≤ most_nodes }
    requires periods { ArePeriods graph.now periods.now }
    requires some { Meets graph.now (SomeRounds (HasBit periods.now.period) sum) set }
    ensures below { result < sum }
    ensures first { IsFirst (λ n. Meets graph.now (Rounds (HasBit periods.now.period) n (sum - n)) set) result }
{
    for n in 0..sum {
        if rounds(graph, periods, n, sum - n) & set != 0 {
            return n;
        }
    }
    unreachable!()
}
