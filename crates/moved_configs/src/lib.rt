//! The configurations that a rule only moves (McIntosh 1991), and the least ring of them.
//!
//! A rule only moves a configuration by s cells if each cell i of the image has the letter of cell i + s of the
//! configuration. If s is 0, the rule leaves the configuration as it is. Let the rule have width m and offset o. The
//! window of cell i begins at cell i + o, so it has cell i + s at its place s - o, if this is a place from 0 to m - 1.
//! Then the rule only moves a configuration if and only if it gives for each window of the configuration the letter at
//! place s - o of the window. Such a window is *kept*.
//!
//! A node is a word of m - 1 letters. A window leads from the node of its first m - 1 letters to the node of its last
//! m - 1 letters. A *trim* of a set of nodes removes each node from which no kept window leads to a node of the set,
//! and each node to which none leads from a node of the set. Trims begin with the set of all nodes and end with a set
//! that doesn't change any more (the essential part of the graph, Lind and Marcus 1995). From each of its nodes kept
//! windows lead on for ever to both sides. So the kept windows between nodes of this set are the windows of the
//! configurations that are only moved.
//!
//! For example, under rule 184 a 1 moves to the right if the next cell is 0. If s is -1, the windows are 000, 001, 010,
//! 100, 101 and 111: either no two 1s are neighbours, or all letters are 1. If s is 0, the windows are 000, 001, 011
//! and 111: no 0 is to the right of a 1.
//!
//! A ring is only moved if the rule only moves the configuration that repeats the ring for ever. Kept windows that lead
//! from a node back to this node read such a ring, and each such ring is read in this way. Among k^(m - 1) + 1
//! neighbouring nodes of a configuration two are equal, so the least ring has at most k^(m - 1) letters. Its letters
//! are found one after another: each time the least letter from which the rest of the ring can be read.
//!
//! There are at most 16 nodes and 256 windows. Let N be the number of nodes. At most N trims change the set of nodes,
//! and each takes time **O(N k)**. To find a ring of n letters takes time **O(N^2 k n^2)**. No function needs memory.
#![tactic(auto)]

mod laws;
mod rings;
mod trims;
mod windows;

pub use laws::moved_rings;
pub use rings::{MovedRing, least_moved_ring};
pub use windows::{WindowRows, moved_windows, place_of};
