//! Computes the rank of each pair of nodes: the greatest length of two walks with equal labels that begin, or end, at
//! the two nodes (Sutner 1991).
//!
//! A rule has width m, and a node is a word of m - 1 letters. The forward rank of two nodes is the greatest n for
//! which two words of n + m - 1 letters with the same image begin with these nodes. If there are such words for every
//! n, the nodes have no finite forward rank, and they are called endless forward. The backward rank of two nodes is
//! the greatest n for which two words of n + m - 1 letters with the same image end with these nodes. If there are such
//! words for every n, the nodes are called endless backward. On the right side a rank is a forward rank, and on the
//! left side it is a backward rank.
//!
//! Rule 204 gives the middle letter of its window. The windows that begin with the node 00 all give 0, and the
//! windows that begin with 01 all give 1. So the nodes 00 and 01 have the forward rank 0. Now take two
//! words of the same length that end with these nodes and are equal except for their last letter. The last letter is
//! the middle of no window, so the two words have the same image, however long they are: the nodes are endless
//! backward.
//!
//! Two nodes have a rank of at least n + 1 if two edges with equal labels lead from them to nodes with a rank of at
//! least n. So the ranks are found in rounds. Each round trims the set of the remaining pairs: it keeps the pairs from
//! which a step leads to a remaining pair. Round n, starting at 0, removes the pairs of rank n. The rounds end when
//! nothing is removed, and the remaining pairs are endless. For backward ranks the rounds follow edges backward.
//!
//! A finite rank is less than N * (N - 1) / 2, at most 119, for three reasons. A pair of rank n leads to pairs of each
//! smaller rank. The pairs (u, v) and (v, u) have equal ranks. The pair (u, u) is endless.
//!
//! If there are k states and N = k^(m - 1) nodes, a set of pairs is N rows of bits. A round takes time **O(k·N)** in
//! operations on rows, `of` at most **O(k·N·N²)**, and each look-up **O(1)**. Only [`Ranks::row`] needs memory: it
//! copies all ranks of a side in time and memory **O(N²)**.
#![tactic(auto)]

mod endless;
mod ranks;
mod rounds;
mod rows;

pub use endless::Endless;
pub use ranks::{Ranks, ranks_are_few};
