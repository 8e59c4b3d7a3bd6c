//! Pairs of nodes of the de Bruijn graph, and the steps between them (Sutner 1991).
//!
//! A node is a word of m - 1 letters. Let N = k^(m - 1) be the number of nodes. The pair (u, v) has the number
//! u * N + v. A step follows two edges with equal labels, one from u on letter a and one from v on letter b, to the
//! pair of the nodes where the edges end. So a walk of pairs spells two words with the same image.
//!
//! Under rule 110 the pair of the nodes 10 and 01 has the number 2 * 4 + 1 = 9. Its letters 1 and 0 follow the windows
//! 101 and 010, which both give 1, to the nodes 01 and 10: `follow(9, 1, 0)` is `Some(6)`. Node 10 begins with 1 and
//! node 01 with 0, so `back(6, 1, 0)` is `Some(9)`. The window 100 gives 0, so `follow(9, 0, 0)` is `None`. The tests
//! `rule_110_has_these_steps` and `every_step_is_undone` of worked_examples take these steps.
//!
//! The marked graph has two copies of each of the N * N pairs, which are called marked pairs. Pair p has the number p
//! without the mark, and p + N * N with the mark. A step sets the mark if its two letters differ, and no step removes
//! the mark. So a walk from p to p + N * N spells two different words.
//!
//! A trim of a set of pairs keeps the pairs from which some step leads to a pair of the set, and removes the other
//! pairs. Steps go forward on the right side, and backward on the left side. Under rule 110 each pair has a step
//! forward. But no step backward begins at the pairs of 00 with 01 and of 00 with 10: windows that end with 00 give 0,
//! and windows that end with 01 or 10 give 1.
//!
//! `Pairs::of` takes time **O(k^m)**, a trim **O(k·N)** operations on rows of N bits, a plain trim **O(k^2·N^2)**,
//! `all` and `same` **O(N)**, and every other call **O(1)**. No call needs memory.
#![tactic(auto)]

mod pair_set;
mod pairs;
mod plain;

// The programs of this repository use these.
pub use pair_set::PairSet;
pub use pairs::Pairs;

// For other programs in Rattle. No program of this repository uses these.
pub use plain::{plain_backward, plain_forward};
