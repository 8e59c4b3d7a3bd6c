//! The judge of certificates.
//!
//! The judge accepts bytes if and only if they are the text of a certificate that meets seventeen conditions. Then each
//! verdict of the certificate is true of its rule. Otherwise the judge returns a *refusal*: the first fault of the
//! text, or the first condition that isn't met. For example, it refuses the empty input, since it isn't JSON. It
//! accepts what `ca certify 110` prints.
//!
//! The judge doesn't use any code that decides questions about rules. So you needn't trust the program that found the
//! evidence. The crate `cert_conditions` has the conditions, the terms that the comments use (claim, first pair,
//! step, gain), and the laws that make the verdicts true.
//!
//! For k states and N nodes, the check of the claims takes time **O(N²·k²)**. The check of listed pairs takes the
//! same time, and **O(s)** more for s pairs. For s listed sets, of which d are different, the check takes **O(s +
//! d·k·N)**, and from version 2 on **O(2^N)** more. If there are at most 256 sets, they are compared one by one, in
//! **O(s·k·(s + N))**. An orphan of n letters takes **O(n·N)**. Twins and a ring take **O(n·m)**. No condition needs
//! memory.
#![tactic(auto)]

mod aheads;
mod claims;
mod conditions;
mod judging;
mod marks;
mod orphans;
mod pairs;
mod sets;
mod splits;
mod sums;
mod twins;
mod windows;

pub use cert_conditions::{Refusal, SplitCause, TwinCause, Verdicts};
pub use judging::judge;
pub use word_image::Side;
