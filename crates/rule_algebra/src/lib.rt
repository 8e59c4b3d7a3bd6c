//! Local rules that are made of local rules.
//!
//! A shifted rule has the same table at another offset: if the offset grows by `by`, the new image cell i is the old
//! image cell i + `by`. A permuted rule renames the letters: if f gives a letter for a window, the permuted rule gives
//! the new name of this letter for the renamed window. The image under a composition of two rules is the second rule's
//! image of the first rule's image. A widened rule has more cells on the right and ignores them. A trimmed rule has
//! lost the cells at its ends that it ignores, down to a width of 2.
//!
//! The product of two cells has the table 0 0 0 1, and their sum modulo 2 has 0 1 1 0. The sum of products reads three
//! cells: for the window 0 1 1 the products are 0 and 1, and their sum is 1. Its table is 0 0 0 1 0 0 1 0, and the
//! product of sums has 0 0 1 0 0 1 0 0. Rule 170 copies the right one of three cells. Trimmed, it has the table 0 1 0 1
//! at offset 0, and copies the second of two cells. `ca compose 2:2:0:t0001 2:2:0:t0110`, `ca compose 2:2:0:t0110
//! 2:2:0:t0001` and `ca trim 170` print these rules.
//!
//! No function makes a rule that would break a limit of accepted rules. A rule may have at most five cells and at most
//! 16 words of m - 1 letters, and its window must be within 16 cells on both sides. Nothing here needs memory. A rule
//! of k states and width m has a table of k^m letters, at most 256. `shift` takes time **O(k^m)**, `trim` **O(m·k^m)**,
//! `permute` **O(m·k^m + k^2)**, `widen` **O(k^m)** for the new width m, and `compose` **O(n·k^m)** for the new width m
//! and the width n of the second rule.
#![tactic(auto)]

mod compositions;
mod fault;
mod parts;
mod recolouring;
mod shifts;
mod trimming;
mod widening;

pub use compositions::compose;
pub use fault::{AlgebraFault, algebra_name};
pub use recolouring::permute;
pub use shifts::shift;
pub use trimming::trim;
pub use widening::widen;
