//! A breadth-first search through the marked pairs.
//!
//! A marked pair is a pair of nodes, with or without a mark. A step on the letters (a, b) follows an edge on a from the
//! first node and an edge on b from the second, and the two edges have equal labels. The step sets the mark if a and b
//! differ. The queue lists the marked pairs in the order in which the search reaches them.

ghost use Rattle.std.specs.Prelude.{◌≡◌, ℕ, ◌+◌, ◌*◌, ◌<◌, ◌≤◌, length, IfSome, IfNone, IsBitSet, Some, slice_get};
ghost use Rattle.word_image.specs.LocalRules.{IsRule, most_states};
ghost use Rattle.word_image.specs.Graphs.{pair_count};
ghost use Rattle.word_image.specs.MarkedPairs.{marked};
ghost use Rattle.least_walk.specs.Marks.{HasPair, IsMarkedPair};
ghost use Rattle.least_walk.specs.declared.queue.Reached.{Reached};
ghost use Rattle.least_walk.specs.Queues.{IsWalkSearch, IsArrival, IsNearStart, IsEnded, IsOldBut, step_count};

use crate::marks::{PairParts, Rows, parts_of, step_from};
use crate::queue::{Queue, Reached};
use pair_graph::Pairs;

/// The two ends of a walk, which are marked pairs.
#[derive(Clone, Copy)]
pub struct Ends {
    /// The number of the marked pair at which the walk starts.
    pub start: u16,
    /// The number of the marked pair at which the walk should end. If it is None, the search has no goal, and lists
    /// all marked pairs that it can reach.
    pub goal: Option<u16>,
}

/// The marked pair from which the search follows steps now.
#[derive(Clone, Copy)]
struct Head {
    /// The place of the marked pair in the queue.
    place: usize,
    /// The marked pair with its mark and its nodes.
    parts: PairParts,
}

/// The last step of a walk to the goal.
#[derive(Clone, Copy, Debug)]
pub struct Arrival {
    /// The place in the queue of the marked pair from which the step leads to the goal.
    pub place: u16,
    /// The pair of letters of the step, (a, b) as 16 a + b.
    pub step: u8,
}

/// Lists in `queue` the marked pairs that the start reaches: breadth first, and with pairs of letters in ascending
/// order. Stops at the first step that leads to the goal, and returns this step. Without such a step, stops at the
/// first marked pair that is `most` steps away or at the end of the queue, and returns None.
pub fn search(queue: &mut Queue, pairs: &Pairs, ends: Ends, most: usize) -> Option<Arrival>
    requires { ends.start < 2 * pair_count pairs.now }
    ensures found { IfSome result (λ a. IsArrival pairs.now ends queue.new a.place a.step) }
    ensures near { IfSome result (λ a. IsNearStart queue.new a.place most) }
    ensures none { IfNone result (IsEnded pairs.now ends queue.new most) }
{
    queue.clear();
    let start = Reached {
        pair: ends.start,
        parent: 0,
        step: 0,
        depth: 0,
    };
    queue.push(start);
    let parts = parts_of(pairs, ends.start);
    let mut rows = Rows::new();
    if ends.goal != Some(ends.start) {
        rows.add(parts);
    }
    let mut head = 0;
    while head < queue.len() {
        if usize::from(queue.at(head).depth) >= most {
            return None;
        }
        if let Some(step) = follow_steps(queue, &mut rows, pairs, ends, head) {
            return Some(Arrival {
                place: head as u16,
                step,
            });
        }
        head += 1;
    }
    None
}

/// Follows the steps from the marked pair at the place `head` of the queue, and appends each marked pair that the queue
/// doesn't have yet. Stops at a step that leads to the goal, and returns its pair of letters. Returns None if there is
/// no such step.
fn follow_steps(
    queue: &mut Queue,
    rows: &mut Rows,
    pairs: &Pairs,
    ends: Ends,
    head: usize,
) -> Option<u8>
    requires head { head < length queue.old }
    requires search { IsWalkSearch pairs.now ends queue.old rows.old (head * step_count pairs.now) }
    ensures found { IfSome result (IsArrival pairs.now ends queue.new head) }
    ensures none { IfNone result (IsWalkSearch pairs.now ends queue.new rows.new ((head + 1) * step_count pairs.now)) }
    ensures same { slice_get queue.new head ≡ slice_get queue.old head }
{
    let t = queue.at(head).pair;
    let from = parts_of(pairs, t);
    let at = Head {
        place: head,
        parts: from,
    };
    let graph = pairs.graph();
    let node = graph.next(from.first, 0);
    let end = graph.next(from.second, 0);
    for a in 0..pairs.rule().k() {
        let letters = rows.fresh(pairs, from, a, node + a, end);
        if letters != 0 {
            if let Some(step) = follow_letter(queue, rows, pairs, ends, at, a, letters) {
                return Some(step);
            }
        }
    }
    None
}

/// Follows the steps from the marked pair `head` whose first letter is `a`, and appends each marked pair that the queue
/// doesn't have yet. Stops at a step that leads to the goal, and returns its pair of letters. Steps whose second letter
/// isn't in `letters` lead to no new marked pair.
fn follow_letter(
    queue: &mut Queue,
    rows: &mut Rows,
    pairs: &Pairs,
    ends: Ends,
    head: Head,
    a: u8,
    letters: u16,
) -> Option<u8>
    requires head { head.place < length queue.old }
    requires marked { IsMarkedPair pairs.now head.parts }
    requires at { (x : Reached) → slice_get queue.old head.place ≡ Some x → x.pair ≡ head.parts.pair }
    requires letter { a < pairs.now.states }
    requires search { IsWalkSearch pairs.now ends queue.old rows.old (head.place * step_count pairs.now + a * most_states) }
    requires old { IsOldBut pairs.now queue.old rows.old head.place a letters }
    ensures found { IfSome result (IsArrival pairs.now ends queue.new head.place) }
    ensures none { IfNone result (IsWalkSearch pairs.now ends queue.new rows.new (head.place * step_count pairs.now + (a + 1) * most_states)) }
    ensures same { slice_get queue.new head.place ≡ slice_get queue.old head.place }
{
    let from = queue.at(head.place);
    let k = pairs.rule().k();
    let mut b = next_letter(letters, 0);
    while b < k {
        if let Some(q) = new_step(pairs, rows, head.parts, a, b) {
            let step = 16 * a + b;
            if ends.goal == Some(q.pair) {
                return Some(step);
            }
            rows.add(q);
            let reached = Reached {
                pair: q.pair,
                parent: head.place as u16,
                step,
                depth: from.depth + 1,
            };
            queue.push(reached);
        }
        b = next_letter(letters, b + 1);
    }
    None
}

/// Returns the least letter of the set `letters` that is at least `from`, or 16 if there is no such letter.
fn next_letter(letters: u16, from: u8) -> u8
    requires { from ≤ most_states }
    ensures least { from ≤ result }
    ensures most { result ≤ most_states }
    ensures none { (b : ℕ) → from ≤ b → b < result → ¬ IsBitSet letters b }
{
    let rest = u32::from(letters) >> from;
    if rest == 0 {
        return 16;
    }
    from + rest.trailing_zeros() as u8
}

/// Returns the marked pair to which the letters `a` and `b` lead from `from`, if the rows don't have it yet. Returns
/// None if there is no such step.
fn new_step(pairs: &Pairs, rows: &Rows, from: PairParts, a: u8, b: u8) -> Option<PairParts>
    requires rule { IsRule pairs.now }
    requires from { IsMarkedPair pairs.now from }
    requires first { a < pairs.now.states }
    requires second { b < pairs.now.states }
    ensures marked { IfSome result (IsMarkedPair pairs.now) }
    ensures step { IfSome result (λ q. marked pairs.now from.pair a b ≡ Some q.pair) }
    ensures new { IfSome result (λ q. ¬ HasPair pairs.now rows.now q.pair) }
    ensures none { IfNone result ((q : ℕ) → marked pairs.now from.pair a b ≡ Some q → HasPair pairs.now rows.now q) }
{
    let q = step_from(pairs, from, a, b)?;
    if rows.has(q) { None } else { Some(q) }
}
