//! The de Bruijn graph of a cellular automaton (Sutner 1991).
//!
//! A node is a word of m - 1 letters, given by its value. An edge is a window of m letters. It leads from the node of
//! its first m - 1 letters to the node of its last m - 1 letters, and its label is the letter that the rule gives for
//! the window. So the edges of a walk spell a word, and their labels spell the image of that word. The walk ends at
//! the last node of the word, which consists of the last m - 1 letters.
//!
//! Rule 110 has the nodes 00, 01, 10 and 11. Letter 1 leads from node 10 to node 01 along the window 101, with the
//! label 1: both `next(2, 1)` and `label(2, 1)` are 1. From node 11, the window 110 leads to node 10 with the label
//! 1, and the window 111 leads to node 11 with the label 0.
//!
//! A set of nodes is a number: its bit u is 1 if node u is in the set. So `ends(3, 0)` is the number 8, which is the
//! set that contains only node 3. A step of a set follows every edge with the given label from every node of the set.
//! From all four nodes, the set 15, a step on 0 leads to the nodes 00 and 11, the set 9. The tests
//! `rule_110_has_this_graph` and `the_word_01010_empties_the_sets_of_rule_110` of worked_examples compare all numbers
//! of this graph.
//!
//! The graph has N = k^(m - 1) nodes, at most 16, and k^m edges. `of` takes time **O(k^m)**, `step` and `after` take
//! **O(N)**, and every other call takes **O(1)**.
#![tactic(auto)]

mod graph;

pub use graph::Graph;
