//! The degree of a surjective rule, and the fewest last nodes and first nodes that a word has (Hedlund 1969).
//!
//! The rule has width m, and a node is a word of m - 1 letters. A last node of a word is the last m - 1 letters of one
//! of its preimages, and a first node is the first m - 1 letters of one of its preimages. The right count f of a rule is
//! the least number of last nodes that a word has. The left count b is the least number of first nodes. A node is at the
//! cut between two words if it is a last node of the first word and a first node of the second word. The degree d is the
//! least number of nodes at a cut.
//!
//! A rule is surjective if and only if its right count isn't 0. Then f b = d N for N = k^(m - 1). An open rule has d
//! preimages of each configuration. These are examples for two states and width 3, so N is 4:
//!
//! | Rule | f | b | d | |
//! |---|---|---|---|---|
//! | 90 | 4 | 4 | 4 | each word has four last nodes and four first nodes |
//! | 30 | 4 | 1 | 1 | each word has four last nodes, and the word 0010 has only the first node 11 |
//! | 170 | 1 | 4 | 1 | the shift to the left: the word 00 has only the last node 00 |
//! | 240 | 4 | 1 | 1 | the shift to the right |
//!
//! Hedlund's multipliers are R = N / b and L = N / f, so L d R = N. For a reversible rule d is 1, and the right Welch
//! index is f = R and the left Welch index is b = L. For other surjective rules, some authors call f and b the Welch
//! indices, and others call R and L so.
//!
//! The sets of last nodes are found in the order of their least words. The first of the smallest sets gives the count
//! and its least word. A search first decides whether the rule is surjective, and if it is, no set is empty. So the search
//! ends at the first set of one node. First nodes are the last nodes of mirrored words under the mirrored rule.
//!
//! A search that finds s sets takes time **O(s k + N^3 k)**, and s is at most 2^N. Memory is allocated once.
#![tactic(auto)]

mod degrees;
mod fewest;
mod theorems;

pub use degrees::{Degree, degree_from_counts};
pub use fewest::{Fewest, Search};
pub use theorems::{
    composition_multiplies, copies_have_powers, degree_counts_preimages, degree_is_least_number,
    degree_is_product, mirror_exchanges_sides, multipliers_and_degree, offset_keeps_degree,
    renaming_keeps_degree,
};
