//! All rules of a shape that have a property, one after another.
//!
//! A shape consists of a number of states k and a width m. It has `k^(k^m)` tables, too many to test each: there are
//! 7.6 million million tables of three states and width 3, and 1,800 of these rules are reversible. So a search fills
//! tables letter by letter, with the windows in a given order. The letters that it has placed, and those that are fixed
//! in advance, are called known. If they rule out the property for all ways to fill in the rest, the search tries none
//! of these tables.
//!
//! Some letters of the table can be fixed in advance. A rule is listed if it has the shape, the offset 0, the property
//! and all fixed letters. The rank of a rule is the number whose digits are its letters in the order of the windows. A
//! [`ListedRules`] is an iterator: it returns the listed rule of least rank, then the next one, and so on. So it returns
//! each listed rule exactly once.
//!
//! If the windows are in the order 111, 110, .., 000, the rank is the Wolfram number. Then the search returns the
//! surjective rules of two states and width 3 as 15, 30, 45, 51, 60, .., 240, which are 30 rules.
//!
//! Walks of pairs of nodes show that known letters rule out a property. A node is a word of m - 1 letters. Each window
//! with a known letter is an edge from its first m - 1 letters to its last m - 1 letters. Known letters lead from a
//! pair of nodes to another pair if two edges with the same known letter lead from the nodes of the first pair to the
//! nodes of the second. They rule out properties in three ways:
//!
//! - They lead from a pair of two equal nodes, first by two different letters, to a pair of two equal nodes. Then no
//!   rule with these letters is surjective. For example, if the windows 000, 001, 010 and 100 all have the letter 0,
//!   the words 00000 and 00100 have the same image.
//! - They lead around a cycle of pairs of different nodes. Then no rule with these letters is injective.
//! - They lead from a pair of two equal nodes, first by two different letters, to such a cycle. Then no rule with these
//!   letters is right-closing. If the edges are followed backward, no rule with these letters is left-closing.
//!
//! A hint is a walk of one of these three kinds. Unproved code finds hints quickly. It stores a hint as links: from
//! each pair to the pair before it, or to the next pair. A proved test follows the links before the search gives up any
//! letters.
//!
//! A forest shows that known letters rule out that a rule is conserving. The flux of a conserving rule gives a number
//! to each node. A known letter at a window determines the difference of the numbers of its two nodes, so it joins
//! these nodes to a tree. Each node of a tree has a level, and the levels of two nodes of a tree differ by as much as
//! their numbers in the flux. For example, if the window 001 has the letter 1, the level of node 00 is one more than
//! the level of node 01. If the two nodes of a window are in the same tree, their levels determine the letter at this
//! window.
#![tactic(auto)]

mod asked;
mod classes;
mod cuts;
mod cycles;
mod edges;
mod forests;
mod hints;
mod letters;
mod orders;
mod properties;
mod reach;
mod search;
mod sums;
mod tables;
mod theorems;
mod walks;

pub use asked::Asked;
pub use letters::FixedLetters;
pub use orders::{is_order, order_for, write_order};
pub use properties::{Property, has};
pub use search::ListedRules;
pub use theorems::{
    calls_list_each_rule_once, fixed_endless_first_pair_forbids_closing,
    fixed_endless_nodes_forbid_injective, fixed_erasable_pair_forbids_surjective,
    levels_give_letters_of_conserving, offset_tells_nothing, one_rule_of_a_rank, parts_add_up,
};
