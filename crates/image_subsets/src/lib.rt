//! The subset automaton of a cellular automaton (Sutner 1991). Its states are sets of last nodes.
//!
//! A node is a word of m - 1 letters. The set of a word w consists of the last nodes of the preimages of w: the last
//! m - 1 letters of each word whose image is w. Each word of m - 1 letters is a preimage of the empty word, so the
//! empty word has the set of all nodes. A step on the letter a leads from the set of w to the set of w followed by a.
//! It follows every edge of the de Bruijn graph that has the label a and begins at a node of the set. A word is an
//! orphan, which means that it has no preimage, if and only if its set is empty.
//!
//! A set of nodes is written as a number: its bit u is 1 if node u is in the set. Under rule 110 a step on 0 leads
//! from all four nodes, the set 15, to the nodes 00 and 11, the set 9.
//!
//! The family of a rule lists the different sets in the order of their least words, up to and including the empty set
//! if there is one. Shorter words are less than longer ones. A breadth-first search from the set of all nodes, with
//! letters ascending, finds the sets in this order. The parent of a set is the place in the list from which the search
//! finds the set. It is the least place from which a step leads to the set.
//!
//! Under rule 106 the family is 15, 13, 14, 9, 6, 5, 10, 1, 2, 12, 4, 8. No set is empty, so the rule is surjective.
//! The sets 1, 2, 4 and 8 contain no other set. To find such sets quickly, a family has a mark on each set that
//! contains another set of the family. The marks are bits in a list of numbers, which are called rows: the mark on set
//! s is bit s % 64 of the row s / 64. The test `rule_106_has_twelve_sets` of worked_examples explores this family.
//!
//! [`Smallest`] goes through the sets in the same order, to the least word whose set has the fewest nodes. It keeps no marks,
//! and it ends at a set that has few enough nodes. Under rule 106 one node is enough, so it ends at the set 1 of the word 0100.
//!
//! If there are N = k^(m - 1) nodes, a family has at most 2^N sets. To explore s sets takes time **O(s k)**, and
//! **O(2^8 k)** for the tables of steps. If no set is empty, the marks take **O(N 2^N)** more, for 64 sets at a time.
//! Memory for all 2^16 sets is allocated once.
#![tactic(auto)]

mod family;
mod graph_steps;
mod marks;
mod masks;
mod rows;
mod smallest;
mod step_tables;

// The programs of this repository use these.
pub use family::Family;
pub use masks::MOST_SETS;
pub use smallest::Smallest;
pub use step_tables::StepTables;

// For other programs in Rattle. No program of this repository uses these.
pub use graph_steps::{full, step};
