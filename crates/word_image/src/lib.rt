//! Local rules of one-dimensional cellular automata, and the images of windows, words and rings.
//!
//! A rule has k states, the letters 0 to k - 1, a width m and an offset o. Its table has one letter for each window
//! of m letters. The letter for a window is at the window's value: the base-k number whose most significant digit is
//! the leftmost letter. To get cell i of the image of a configuration, look up the window that consists of the cells
//! i + o to i + o + m - 1.
//!
//! Rule 110 has k = 2, m = 3, o = -1 and the table 0 1 1 1 0 1 1 0. It gives 1 for the window 0 1 1, whose value is
//! 3.
//!
//! The image of a word consists of the letters that the rule gives for the word's windows, from left to right. Under
//! rule 110 the image of 0 1 1 0 0 is 1 1 0. The image of 0 1 is empty. A word is a preimage of its image. The test
//! `rule_110_has_these_images` of worked_examples computes these images.
//!
//! A ring is a word that is read in a circle, so its first letter follows its last one. The image of a ring is a ring
//! of the same length. Under rule 110 the image of the ring 0 0 1 is the ring 0 1 1.
//!
//! A node of the de Bruijn graph is a word of m - 1 letters, and its number is the value of this word. There are
//! N = k^(m - 1) nodes, at most 16. Each window is an edge from the node of its first m - 1 letters to the node of
//! its last m - 1 letters. The label of the edge is the letter that the rule gives for the window. Under rule 110 the
//! window 0 1 1 is an edge from node 1 to node 3, with the label 1. The last node of a word consists of the last
//! m - 1 letters of the word. On the right side, walks follow edges forward. On the left side, they follow edges
//! backward.
//!
//! A set of nodes is a number: its bit u is 1 if node u is in the set. The pair of the nodes u and v has the number
//! u * N + v.
//!
//! `Word`, `SetList`, `RankRow` and `FluxRow` are the lists in the evidence for a verdict on a rule. The forward rank
//! of two nodes is the greatest length of two walks with equal labels that begin at the nodes. The backward rank is the
//! greatest length of two walks with equal labels that end at them. A flux is an integer for each node, and shows that
//! a rule keeps the sum of every ring. `Weights` has a weight for each letter.
//!
//! `at` takes time O(1), `apply` O(m), and `image` takes time O(n m) and space O(n) for an image of n letters.
#![tactic(auto)]

mod edges;
mod images;
mod letters;
mod lists;
mod local_rule;
mod pairs;
mod rings;
mod side;
mod values;
mod weights;

// The programs of this repository use these.
pub use edges::{EdgeRows, edge_rows, step, union_of_rows};
pub use letters::{digit, letter, text_word, word_text};
pub use lists::{FluxRow, RankRow, SetList, Word};
pub use local_rule::{
    GREATEST_PLACE, LEAST_PLACE, MOST_ENTRIES, MOST_NODES, MOST_PAIRS, MOST_STATES, MOST_WIDTH,
    Rule, RuleFault, check_shape, first_foreign,
};
pub use rings::{first_place, keeps_sum, ring_apply};
pub use side::Side;
pub use values::{letter_of, value_by};
pub use weights::{WeightFault, Weights};

// For other programs in Rattle. No program of this repository uses these.
pub use images::{ImageFault, image};
pub use rings::{RingFault, ring_image};
