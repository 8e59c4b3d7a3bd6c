//! Decides whether a cellular automaton is surjective, and finds the least orphan if it isn't (Amoroso and Patt 1972,
//! by the subset construction of Sutner 1991).
//!
//! An orphan is a word without a preimage. A rule is surjective if and only if it has no orphan. Shorter words are
//! less than longer ones, and words of equal length are in dictionary order. The set of a word has the last nodes of
//! its preimages: the last m - 1 letters of each word whose image it is. So the set of an orphan is empty. The family
//! of the rule lists the different sets in the order of their least words, up to and including the empty set if there
//! is one. So the least word of the empty set is the least orphan, and without an empty set there is no orphan.
//!
//! A set is written as a number: its bit u is 1 if node u is in the set. Rule 110 has the nodes 00, 01, 10 and 11,
//! and the family 15, 9, 14, 6, 1, 2, 0. The search finds the set 9 from 15 by the letter 0, the set 6 from 9 by 1,
//! the set 1 from 6 by 0, the set 2 from 1 by 1, and the empty set from 2 by 0. So the least orphan is 01010.
//!
//! If no set of the family is empty, a part of the family shows this too. The cover list has the set of all nodes
//! first, and then each set of the family that contains no other set of the family. Rule 106 has a family of twelve
//! sets and the cover list 15, 1, 2, 4, 8. The test `rule_106_reaches_twelve_sets_whatever_ran_before` of
//! worked_examples runs this search, and the test `one_search_decides_rule_after_rule` of worked_examples finds the
//! orphan 01010.
//!
//! If there are N = k^(m - 1) nodes, a family has at most 2^N sets. A run that finds s sets takes time **O(s k)**,
//! and **O(N 2^N)** more for a cover list. Memory is allocated once.
#![tactic(auto)]

mod search;

// The programs of this repository use these.
pub use search::Search;

// For other programs in Rattle. No program of this repository uses these.
pub use search::Outcome;
