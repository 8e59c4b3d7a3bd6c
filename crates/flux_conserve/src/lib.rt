//! Decides whether a rule conserves the weight of every ring (Hattori and Takesue 1991).
//!
//! The weight of a letter is a whole number from 0 to 255, and its own value if no other weights are given. The
//! weight of a ring, which is also called its sum, adds up the weights of its letters. A rule is conserving if each
//! ring has the same weight as its image.
//!
//! A node is a word of m - 1 letters. A flux is a list phi with one whole number for each of the N = k^(m-1) nodes
//! such that `weight(f(w)) - weight(w[0]) = phi(first m-1 letters of w) - phi(last m-1 letters of w)` for every
//! window w. If there is a flux, its terms cancel out around every ring. The gain of a window w is
//! `weight(f(w)) - weight(w[0])`, and the gain of a walk is the sum of the gains of its windows. If every ring of at
//! most 2m - 1 letters keeps its weight, there is a flux: phi(v) is the gain of the walk from v that reads m - 1
//! letters 0. So a rule is conserving if and only if these numbers are a flux, and they are the only flux with
//! phi(0) = 0.
//!
//! Under rule 184 each 1 moves to the right if there is a 0. If each letter weighs its own value, the flux is 0 0 0 -1.
//! For the window 1 1 0 the rule gives 0, one less than the first letter, and phi(11) - phi(10) is -1. For the window 0
//! 1 1 the rule gives 1, one more than the first letter, and phi(01) - phi(11) is 1. If 0 weighs 1 and 1 weighs 4, the
//! flux is 0 0 0 -3. Rule 232 gives the majority of three cells. The ring 0 0 1 becomes 0 0 0, and all lesser rings
//! keep their weights. `ca decide 184`, `ca decide 184 1,4` and `ca decide 232` print these fluxes and this ring.
//!
//! [`has_mean`] and [`keeps_ends`] only look at the table. If each letter weighs its own value, the letters of a
//! conserving rule's table have the mean (k - 1) / 2, and the rule gives 0 for the window of zeros and k - 1 for the
//! window of the greatest letters. [`is_conserving`] gives no evidence: it compares windows with the walks from their
//! two nodes until one shows that there is no flux.
//!
//! [`conserve`] first tests the rings of one letter in time O(k m). Then it computes the gains of the walks in time
//! O(N m) and tests them on all windows in time O(N k). If they are no flux, it lists rings, shorter ones first,
//! until one doesn't keep its weight. There are at most 2 k^(2m-1) of them, which is 8,192, and each takes time
//! O(m^2). It needs no memory.
#![tactic(auto)]

mod conserving;
mod flows;
mod means;
mod rings;
mod verdict;

pub use conserving::is_conserving;
pub use means::{has_mean, is_mean, keeps_ends, letter_sum};
pub use rings::{LONGEST_RING, SmallRing};
pub use verdict::{Keeping, conserve};
