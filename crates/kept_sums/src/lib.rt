//! All sums of integer weights of words that a rule keeps (Hattori and Takesue 1991).
//!
//! Weights are integers, one for each word of r letters. The sum on a ring adds up the weights of the words that begin
//! at its places. A rule keeps the sum if it is the same on each ring and on the ring's image. For words of one letter
//! these are the conserved sums of cells. For words of two letters pairs of neighbours are weighed, and so on. There
//! are at most 16 words of r letters. In the code, r is called `range`.
//!
//! Every rule keeps the trivial sums, which only depend on the length of the ring. Each choice of weights is the sum
//! of trivial weights and normal weights, in exactly one way. Normal weights are 0 for each word that begins with the
//! letter 0. The answer is a basis of the normal weights whose sums are kept, in reduced form. Its elements are
//! called rows. Each row begins with a positive number at a place where the other rows have 0, and only 1 divides all
//! its numbers. There is exactly one such basis.
//!
//! Rule 184 keeps the sum of its cells. Rule 14 doesn't, but it keeps the number of occurrences of 10 in a ring. Rule
//! 204 keeps everything.
//!
//! If a rule keeps the sum of some weights, [`flux`] returns a number for each word of m + r - 2 letters. A window here
//! has m + r - 1 letters. Its gain is the weight of its image minus the weight of its first r letters. For each window,
//! the gain is the number of its first m + r - 2 letters minus the number of its last m + r - 2 letters. `flux` finds
//! the numbers from the windows that begin with 0, and tests them on all windows.
//!
//! [`kept_sums`] begins with one row for each word that doesn't begin with 0. It goes through the rings of at most 2
//! (m + r) - 3 letters, shorter ones first, until each row that is left has a flux. The gain of a row by a ring is its
//! sum on the image minus its sum on the ring. If some row has a gain other than 0, the last such row is called the
//! pivot. Let v be the gain of the pivot. Each row b with gain u is replaced by v times b minus u times the pivot,
//! divided by the greatest common divisor of the numbers. The pivot itself becomes 0, and the ring is stored in its
//! place. The stored rings show that there are no other sums: all weights whose sums are kept on these rings are
//! rational combinations of the rows and of trivial weights.
//!
//! No number is greater than 2^56. Each stored ring is a condition. Take one more place than there are conditions so
//! far: up to multiples, a row is the only solution of the conditions that is 0 at all other places. Such conditions
//! have a solution with small numbers.
//!
//! [`kept_sums`] needs no memory, and takes time O(k^(2(m + r))) in the worst case, with at most 65,534 rings.
#![tactic(auto)]

mod fluxes;
mod kept;
mod ranges;
mod rings;
mod rows;
mod steps;
mod theorems;

pub use fluxes::{Flux, MOST_FLOWS, flux};
pub use kept::{KeptSums, kept_sums};
pub use ranges::{RangeFault, check_range};
pub use rings::LONGEST;
pub use rows::{Row, are_small};
pub use theorems::{
    conserved_weights_are_kept, made_rules_keep_sums, offset_keeps_sums, one_answer,
    rings_are_independent, rows_are_independent, rows_give_all_kept_sums,
    short_rings_and_fluxes_tell, trivial_sums_are_kept,
};
