//! Decides whether a cellular automaton closes on each side (Amoroso and Patt 1972, Sutner 1991).
//!
//! A right split consists of two different configurations with the same image that agree to the left of some place. A
//! rule without a right split is right-closing. A left split consists of two different configurations with the same
//! image that agree to the right of some place. A rule without a left split is left-closing. A number n is a right
//! look-ahead if the first m - 1 letters of a word and the first n letters of its image determine the next letter of
//! the word. A rule is right-closing if and only if it has a right look-ahead. The left side of a rule is the right
//! side of the mirrored rule.
//!
//! A first pair on the right is a pair of nodes of the de Bruijn graph that two different letters reach from the same
//! node, along edges with equal labels. Its forward rank is the greatest n for which two walks of n steps with equal
//! labels begin at its nodes. If there is no greatest n, the pair is endless. So n is a right look-ahead if and only
//! if no first pair has a forward rank of n - 1 or more, or is endless. The least right look-ahead is 2 more than the
//! greatest rank of a first pair. It is 1 if there is no first pair, and there is none if some first pair is endless.
//!
//! Rule 60 gives the sum of the two left cells of its window modulo 2. From the node 00 both letters have the label 0.
//! They lead to the first pair 00 and 01, whose next labels are 0 and 1. The other nodes are similar, and the least
//! right look-ahead is 2. Two windows that differ only in their first letter have different labels, so the least left
//! look-ahead is 1. `ca decide 60` prints both look-aheads.
//!
//! A split is stored as two Tails (crate tail_config). The Tail `L|M|R` has the left period L, the middle M, which
//! begins at place 0, and the right period R. The marked graph has each of the N² pairs of nodes twice, without a mark
//! and with it. These are its states. A step on two different letters sets the mark.
//!
//! A normal right split consists of two walks in the marked graph. The first walk leads from the pair of the node of
//! zeros with itself to a state, and spells the middles. The second walk leads from that state back to its pair, with
//! the mark, and spells the right periods. The left periods are 0. A split with fewer steps in both walks together is
//! less. Of two splits with the same number of steps, the split with the shorter middle is less, and then the
//! dictionary order of the pairs of letters decides. For each of the 2 N² states the least walks give the least split
//! with this state between its two walks. The least of these splits is the least of all.
//!
//! Under rule 110 the pairs of letters (1, 1), (0, 1), (0, 1) lead from the pair of 00 with itself to the pair of 00
//! and 11, with the mark, and (0, 1) leads from there back to it. The image of `0|100|0`, and of `0|111|1`, is 1
//! exactly at the places -1 and 0. `ca decide 110` prints these two configurations.
//!
//! If there are N = k^(m - 1) nodes, a look-ahead takes time **O(k·k^m)** and no memory. So does the test whether a
//! rule closes. A split takes one search for all middles and one search for the period of each state. The search for
//! a period ends when the split would be greater than the least split so far. This takes time **O(k·N⁴)** in
//! operations on rows. A [`SplitRoom`] has the memory for the two configurations and for the search of the middles.
#![tactic(auto)]

mod closes;
mod closing;
mod ends;
mod look_ahead;
mod split;
mod split_room;
mod walks;

// The programs of this repository use these.
pub use closes::{is_left_closing, is_right_closing};
pub use look_ahead::{ahead_left, ahead_right};
pub use split_room::{LentClosing, SplitRoom};

// For other programs in Rattle. No program of this repository uses these.
pub use closing::{Closing, left, right};
