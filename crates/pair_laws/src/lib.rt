//! Laws of words with the same image, as walks of pairs of nodes in the de Bruijn graph.
//!
//! A node is a word of m - 1 letters. Two words with the same image are two walks with equal labels from node to node,
//! so together they are one walk of pairs of nodes. The forward rank of two nodes is the greatest number of steps of
//! such walks that begin at the nodes. The backward rank is this number for walks that end at them. A first pair
//! consists of two nodes that two different letters reach from the same node, along edges with equal labels.
//!
//! The lemmas show how to cut and join walks of pairs, and how ranks grow step by step. They also express two kinds of
//! evidence by pairs of nodes. A determined window shows that a rule is injective. A look-ahead shows that a rule
//! closes on a side. Other lemmas show that a first pair consists of the ends of two windows that differ in one letter.
//! The left side of a rule is treated as the right side of the mirrored rule.
//!
//! This crate has no functions. Its lemmas only use definitions of word_image. Both the deciders and the checker of
//! certificates use them.
#![tactic(auto)]
