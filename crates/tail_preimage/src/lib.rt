//! Preimages of configurations with periodic tails: the first placed configuration that a rule maps to a given one,
//! or otherwise the first stretch of the given one that is an orphan.
//!
//! A *placed configuration* consists of a left period, a middle, a right period, and the place at which the middle
//! begins. The rule maps it to a configuration if at every integer it gives the letter of that configuration for the
//! window there. A placed configuration is a walk in the de Bruijn graph (Sutner 1991) whose labels are the letters
//! of the given configuration. The node of the walk at a place is the word of the m - 1 letters that begin there.
//!
//! A *stretch* of the given configuration `L|M|R` consists of zero or more left periods, the middle and zero or more
//! right periods. If a stretch is an orphan, there is no preimage. This stretch is a *gap*. Otherwise there is a walk
//! along 16 left periods, the middle and 16 right periods. There are at most 16 nodes, so two of the 17 nodes at the
//! ends of the left periods are equal, and two on the right are also equal. This gives two *loops* of whole periods,
//! which are walks from a node back to it, and a walk between the loops. So there is a placed configuration whose
//! periods are the loops.
//!
//! The *shape* of a placed configuration says how many left and right periods of the given configuration its parts
//! span. The first placed configuration spans the fewest left periods in total, then the fewest right periods in total,
//! then the fewest left periods in its middle, then the fewest right periods in its middle. Then it has the first
//! letters in dictionary order.
//!
//! The search finds each of these four numbers as the least one for which two sets of nodes have a common node. The
//! first set has the nodes before the middle to which left periods lead from a loop. The second set has the nodes from
//! which the middle and right periods lead to a loop. The left periods are read backward, starting at the middle, so
//! both sides are searched in the same way. The letters are found from left to right. At each place the walk takes the
//! edge to the least node from which the goal can still be reached.
//!
//! A *relation* between nodes says from which nodes to which nodes a walk along a word leads.
//!
//! Under rule 90, the sum of the two neighbours modulo 2, `-1 0|0|01` is mapped to `0|1|0`. Its cells are 0 up to place
//! 0 and alternate after it, so the two neighbours differ only at place 0. Under rule 110 nothing is mapped to
//! `0|101|0`: 01010 is an orphan, and neither 1010 nor 0101 is one. `ca preimage 90 '0|1|0'` and `ca preimage 110
//! '0|101|0'` print this.
//!
//! For N = k^(m - 1) nodes and parts of l letters a search takes time **O(N² l)**. It works in a [`PreimageRoom`], whose
//! size doesn't depend on N and l.
#![tactic(auto)]

mod answer;
mod gaps;
mod periods;
mod relations;
mod room;
mod shapes;
mod walks;
mod words;

// The programs of this repository use these.
pub use answer::{LentPlaced, LentPre};
pub use room::PreimageRoom;

// For other programs in Rattle. No program of this repository uses these.
pub use answer::{Placed, Pre, preimage};
