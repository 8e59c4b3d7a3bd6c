//! Decides whether a cellular automaton is injective (Amoroso and Patt 1972). The evidence for a yes is the least
//! determined window, and for a no the least twins.
//!
//! A window (n, c) is determined if any two words of n + m - 1 letters with the same image have the same letter at
//! place c. Their image has n letters. So an inverse map can compute the letter at place c of a word from n letters
//! of its image. Windows are ordered by n, then by c. Twins are two different words of the same length whose rings
//! have the same image. They are ordered by their length, and then by the dictionary order of their pairs of letters.
//!
//! Rule 170 copies the right cell: the image of abc is c, so the window (1, 2) is determined. The windows (1, 0) and
//! (1, 1) aren't, since 001 and 111 have the image 1. Rule 184 isn't injective: the rings 0011 and 0101 both become
//! 1010, and no lesser words are twins. `ca decide 170` prints the window, and `ca decide 184` the twins.
//!
//! A node is a word of m - 1 letters, and there are N = k^(m - 1) nodes. The forward rank of two nodes is the greatest
//! n for which two words with equal images of n letters begin with these nodes. The backward rank is the greatest n for
//! which two such words end with these nodes. A finite rank is at most 119. If there is no greatest n, the two nodes
//! are called endless, forward or backward. Their rank then counts as greater than every number.
//!
//! Cut two words with the same image of n letters at the place j = min(c, n). Their first j + m - 1 letters end with
//! two nodes, and have equal images of j letters. Their letters from place j on begin with the same two nodes, and have
//! equal images of n - j letters. The letter at place c of a word is the letter at place c - j of its node. So (n, c)
//! isn't determined if and only if some two nodes differ in their letter at place c - j, have a backward rank of at
//! least j and have a forward rank of at least n - j.
//!
//! If c ≤ n, c - j is 0, the first place of a node. One pass over the pairs finds for each backward rank the greatest
//! forward rank of two nodes that differ in their first letter. A second pass goes over the backward ranks from the
//! greatest to the least. For each c it finds the greatest forward rank r of the pairs whose backward rank is at least
//! c. The least n for this c is c + r + 1. If c > n, the letter is inside the last node, and n is one more than the
//! greatest backward rank of two nodes that differ in this letter. Some window is determined if and only if no two
//! different nodes are endless in both directions.
//!
//! Twins are the closed walks in the graph of pairs of nodes on which the two letters of some step differ (Sutner
//! 1991). The marked graph has each pair of nodes without a mark and with it, and a step on two different letters
//! sets the mark. In the marked graph twins lead from a pair without the mark to the same pair with the mark. The
//! least twins are the least of these walks over all pairs. Each search ends when its walk would be longer than the
//! least walk so far. A least walk visits no state of the marked graph twice, so twins have at most 512 letters each.
//!
//! [`is_injective`] takes time **O(N)** in operations on rows of N bits, and [`window`] takes **O(m·N^2)**.
//! [`least_twins`] takes time **O(N^4·k^2)**, for N^2 walks in a graph of 2·N^2 states. It searches in the memory of a
//! walker, and the others need no memory. [`twins`] copies the two words of the least twins into memory of their own.
#![tactic(auto)]

mod starts;
mod twin_pairs;
mod verdicts;
mod windows;

// The programs of this repository use these.
pub use twin_pairs::least_twins;
pub use verdicts::is_injective;
pub use windows::{WindowAt, window};

// For other programs in Rattle. No program of this repository uses these.
pub use twin_pairs::{TwinPair, twins};
