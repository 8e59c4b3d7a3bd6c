//! Finds the least normal right split of a rule.
//!
//! A right split consists of two different configurations with the same image that agree far to the left. The marked
//! graph has each pair of nodes twice, without a mark and with it. These are its states. A step on two different
//! letters sets the mark. A normal right split consists of two walks in this graph, called the middle and the period.
//! The middle leads from the unmarked pair of the node of zeros with itself to some state. The period leads from this
//! state to the same pair of nodes with the mark.

ghost use Rattle.std.specs.Prelude.{◌≡◌, ◌+◌, ◌*◌, ◌<◌, IfSome};
ghost use Rattle.least_walk.specs.Queues.{most_steps};
ghost use Rattle.word_image.specs.LocalRules.{IsRule};
ghost use Rattle.word_image.specs.Graphs.{pair_count};
ghost use Rattle.tail_config.specs.Splits.{IsNormalRightSplit};
ghost use Rattle.tail_laws.specs.SplitWalks.{first_tail, second_tail};
ghost use Rattle.closing_test.specs.Walks.{IsLeastSoFar, middle_pairs, period_pairs};

use crate::walks::Walks;
use least_walk::{Queue, WalkTree, Walker};
use pair_graph::Pairs;

/// Returns the walks of the least normal right split, or None if there is no such split. For each state of the marked
/// graph it looks at one split at most. It looks at states with short middles first, so that later searches for periods
/// are short. `queue` has memory for the middles.
pub fn least_walks(pairs: &Pairs, walker: &mut Walker, queue: &mut Queue) -> Option<Walks>
    ensures { IsLeastSoFar pairs.now (pair_count pairs.now + pair_count pairs.now) result }
{
    pairs.rule().keeps_limits();
    let middles = WalkTree::of(queue, pairs, 0);
    let mut best = short_walks(pairs, walker, &middles);
    for i in 0..middles.len() {
        if let Some(found) = Walks::earlier(pairs, walker, &middles, middles.pair(i), &best) {
            best = Some(found);
        }
    }
    best
}

/// Looks only at states from which a single step leads back to the state's pair of nodes, with the mark. Returns the
/// walks of the least split that has one of these states between its two walks, or None if there is no such split. This
/// small split keeps later searches for longer periods short.
fn short_walks(pairs: &Pairs, walker: &mut Walker, middles: &WalkTree) -> Option<Walks>
    requires { middles.now.source ≡ record { rule = pairs.now; start = 0; most = most_steps } }
    ensures { IfSome result (λ walks. IsNormalRightSplit pairs.now (first_tail (middle_pairs walks) (period_pairs walks)) (second_tail (middle_pairs walks) (period_pairs walks))) }
{
    let mut best = None;
    for i in 0..middles.len() {
        let state = middles.pair(i);
        if is_loop(pairs, state)
            && let Some(found) = Walks::earlier(pairs, walker, middles, state, &best)
        {
            best = Some(found);
        }
    }
    best
}

/// Returns whether a single step leads from this state back to its pair of nodes, with the mark.
fn is_loop(pairs: &Pairs, state: u16) -> bool
    requires { state < 2 * pair_count pairs.now }
    ensures { IsRule pairs.now }
{
    let p = state % pairs.count();
    let (u, v) = pairs.rule().nodes_of(p);
    let k = pairs.rule().k();
    pairs.marked(state, u % k, v % k) == Some(p + pairs.count())
}
