//! Functions that call the public functions of `pair_graph`, `pair_rank` and `least_walk`.
//!
//! In the marked graph each pair of nodes occurs twice, without a mark and with it. A step on two different letters
//! sets the mark.

ghost use Rattle.std.specs.Prelude.{◌≡◌, ◌<◌, ◌*◌, length};
ghost use Rattle.word_image.specs.LocalRules.{node_count};
ghost use Rattle.word_image.specs.Graphs.{pair_count};

use least_walk::Walker;
use pair_graph::{PairSet, Pairs, plain_backward, plain_forward};
use pair_rank::Ranks;
use std::alloc::{AllocError, Global};
use word_image::Rule;

/// Returns the graph of the pairs of nodes of a rule, and the number of pairs.
pub fn pairs(rule: &Rule) -> (Pairs, u16) {
    let pairs = Pairs::of(rule);
    let count = pairs.count();
    (pairs, count)
}

/// Returns the rule whose pairs of nodes these are.
pub fn rule(pairs: &Pairs) -> &Rule {
    pairs.rule()
}

/// Returns three pairs, each if it exists:
///
/// 1. the pair to which the letters a and b lead from pair p
/// 2. the pair that leads to pair p and whose nodes begin with the letters a and b
/// 3. the marked pair to which the letters a and b lead from the marked pair p
pub fn steps(pairs: &Pairs, p: u16, a: u8, b: u8) -> (Option<u16>, Option<u16>, Option<u16>)
    requires pair { p < pair_count pairs.now }
    requires first { a < pairs.now.states }
    requires second { b < pairs.now.states }
{
    (
        pairs.follow(p, a, b),
        pairs.back(p, a, b),
        pairs.marked(p, a, b),
    )
}

/// Returns four sets of pairs: all pairs after one forward trim and after one backward trim, and the same two by the
/// slow plain trims. A trim removes the pairs from which no step leads into the set.
pub fn trims(pairs: &Pairs) -> [PairSet; 4] {
    let all = PairSet::all(pairs);
    [
        all.trim_forward(pairs),
        all.trim_backward(pairs),
        plain_forward(&all, pairs),
        plain_backward(&all, pairs),
    ]
}

/// Returns whether a set contains pair p.
pub fn holds(set: &PairSet, p: u16) -> bool
    requires { p < length set.now }
{
    set.holds(p)
}

/// Returns whether two sets have the same pairs.
pub fn same(set: &PairSet, other: &PairSet) -> bool
    requires { length set.now ≡ length other.now }
{
    set.same(other)
}

/// Returns the ranks of the pairs of nodes of a rule.
pub fn ranks(rule: &Rule) -> Ranks {
    Ranks::of(rule)
}

/// Returns the rule to which these ranks belong.
pub fn ranked(ranks: &Ranks) -> &Rule {
    ranks.rule()
}

/// Returns the forward rank and the backward rank of the pair of nodes u and v. None means that the rank isn't finite.
pub fn rank(ranks: &Ranks, u: u8, v: u8) -> (Option<u16>, Option<u16>)
    requires first { u < node_count ranks.now }
    requires second { v < node_count ranks.now }
{
    (ranks.forward(u, v), ranks.backward(u, v))
}

/// Makes a walker, which can search for walks between pairs of the marked graph.
pub fn walker(alloc: Global) -> Result<Walker, AllocError> {
    Walker::new(alloc)
}

/// Returns the letters of the least walk between two pairs of the marked graph, or None if there is no walk.
pub fn walk<'a>(walker: &'a mut Walker, pairs: &Pairs, from: u16, to: u16) -> Option<&'a [u8]>
    requires from { from < 2 * pair_count pairs.now }
    requires to { to < 2 * pair_count pairs.now }
{
    walker.walk(pairs, from, to)
}
