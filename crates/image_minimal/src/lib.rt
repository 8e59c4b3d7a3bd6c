//! The least automaton of the words that have a preimage (Myhill 1957, Nerode 1958), and the least word with a
//! preimage under only one of two rules.
//!
//! An *orphan* is a word without a preimage. Two words are *equivalent* if, followed by any word, both are orphans or
//! neither is. The classes of equivalent words are the states of the least automaton.
//!
//! A node is a word of m - 1 letters, and the *last nodes* of a word w are the last m - 1 letters of its preimages. A
//! word z is *read* from a node if the labels of some walk from the node spell z. So w followed by z is an orphan if
//! and only if z is read from none of the last nodes of w. For each word z, the set of the nodes from which z isn't
//! read is called an *unread* set. The *closure* of a set is the intersection of all unread sets that contain it: the
//! greatest set from which no other words are read. Two words are equivalent if and only if their sets of last nodes
//! have the same closure.
//!
//! Steps backward from the empty set reach all unread sets. Then the closures of all sets are computed together, node by
//! node. At first an unread set has itself, and any other set has all nodes. For each node, each set that lacks it then
//! keeps what it has in common with the set that also has this node. This is the second of Brzozowski's two reversals
//! (1962), with a set of nodes instead of a set of sets. A breadth-first search with letters ascending finds each class
//! by its least word first, and the classes are numbered in this order.
//!
//! Two rules are compared by links (Hopcroft and Karp 1971). A *link* is a pair of sets that the same word reaches
//! under the two rules. The links are found breadth first. A pair of sets isn't made a link if earlier links already
//! join its two sets. These earlier links have lesser words. If a word distinguishes the two sets of the pair, it also
//! distinguishes the two sets of one of these links. So the least word that is an orphan of exactly one rule leads to
//! the first link with exactly one empty set.
//!
//! Under the rule that gives 1 only for the window 11, the orphans are the words that contain 101. The word 01 isn't
//! read from node 1, so the set 2, which contains only this node, is unread. The sets 0, 1 and 3 are unread, too, and
//! each is its own closure. The classes have the least words (empty), 1, 10 and 101, whose sets of last nodes are 3, 2,
//! 1 and 0. `ca language 2:2:0:t0001` prints this automaton.
//!
//! For N nodes, u unread sets and c classes `least` takes time **O(u k N + 2^N N + c k)**. A [`Minimal`] takes 528 KB,
//! which serve one rule after another. It doesn't store the c k classes that follow each class on each letter:
//! `Minimal::rows` computes all of them in time **O(c k)**. For n sets under both rules together `separate` takes time
//! **O(n k log n)**, in a [`SeparationRoom`] of 2.8 MB.
#![tactic(auto)]

mod classes;
mod closures;
mod joined;
mod links;
mod listed;
mod separation;
mod subsets;

// The programs of this repository use these.
pub use classes::{Minimal, few_classes, one_least_automaton};
pub use separation::SeparationRoom;

// For other programs in Rattle. No program of this repository uses these.
pub use classes::least;
pub use separation::{SepFault, separate};
