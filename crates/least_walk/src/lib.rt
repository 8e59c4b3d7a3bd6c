//! Least walks of pairs of nodes in the marked graph, found by breadth-first search.
//!
//! A node is a word of m - 1 letters, and there are N = k^(m - 1) nodes. The marked graph has each pair of nodes twice:
//! without the mark and with it. These are called marked pairs. The pair p has the number p without the mark, and
//! p + N * N with the mark. A step on the letters (a, b) follows an edge on a from the first node and an edge on b from
//! the second. The two edges must have equal labels. The step sets the mark if a and b differ, and no step removes the
//! mark.
//!
//! A walk in the marked graph is a list of pairs of letters, and each pair of letters is a step. Shorter walks are
//! less than longer ones. Walks of equal length are in the dictionary order of their pairs of letters, and two pairs
//! of letters are compared by their first letters before their second letters.
//!
//! Under rule 184 each 1 moves to the right if there is a 0. From the pair of the nodes 11 and 01 the letters (0, 0),
//! (0, 1), (1, 0) and (1, 1) lead back to this pair, with the mark: the labels of both walks are 0, 1, 0 and 1. No
//! lesser walk leads from this pair back to it with the mark. The walk spells the words 0011 and 0101, whose rings have
//! the same image. On the way it visits the pair of the node 10 with itself. The test `rules_have_these_least_walks` of
//! worked_examples finds this walk.
//!
//! With pairs of letters in ascending order, a breadth-first search reaches each marked pair first by its least walk.
//! So the first step that leads to the goal ends the least walk to the goal. A search without a goal finds the least
//! walk to each marked pair. The search lists the marked pairs that it reaches in a queue, in the order of their
//! distance from the start. So a search for walks of at most n steps stops at the first marked pair that is n steps
//! away. The marked pairs that have been reached are also stored as bits in rows. For each marked pair and first
//! letter, one look at two rows tells whether some second letter leads to a new marked pair.
//!
//! There are 2 N * N marked pairs, at most 512, and a least walk has at most that many steps. So the memory of a [`Queue`]
//! is allocated once, and a search needs no other memory. It takes time **O(k·N²)** in operations on rows. To read a walk
//! from a [`WalkTree`] takes time proportional to the length of the walk.
#![tactic(auto)]

mod breadth_first;
mod letter_pairs;
mod marks;
mod queue;
mod tree;
mod walker;

pub use letter_pairs::{earlier, spelled};
pub use queue::Queue;
pub use tree::WalkTree;
pub use walker::{MOST_STEPS, Walker};
