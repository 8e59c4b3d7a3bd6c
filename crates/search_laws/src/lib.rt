//! Laws of breadth-first search: it reaches each state first by the least word that leads to the state.
//!
//! This is true for a search that visits its states in the order in which it found them, and tries the letters of each
//! state in ascending order. Shorter words are less than longer ones, and words of equal length are in dictionary
//! order.
//!
//! This crate has no functions. The subset construction and the walks of pairs are both such searches, so the
//! argument is stated here once, for any states and steps.
#![tactic(auto)]
