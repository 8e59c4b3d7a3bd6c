//! Decides five verdicts about a rule, with or without the least evidence for each.
//!
//! | Question | The evidence for a yes | The evidence for a no |
//! |---|---|---|
//! | is it surjective | its cover list, or its reached pairs | the least orphan |
//! | is it injective | the least determined window | the least twins |
//! | is it right-closing, is it left-closing | the least look-ahead | the least normal split |
//! | is it conserving | the flux that is 0 at node 0 | the least ring that doesn't keep its sum |
//!
//! A node is a word of m - 1 letters. A word leads to the set of the last nodes of its preimages. The *cover list* has
//! the set of all nodes, and each other of these sets that contains no other one. A first pair on the right consists of
//! two nodes to which two different letters lead from the same node, along edges with equal labels. The *reached pairs*
//! are the pairs of nodes that walks with equal labels reach from the first pairs.
//!
//! The page of the crate cert_conditions explains the kinds of evidence: orphans, windows, twins, look-aheads, splits,
//! fluxes and rings.
//!
//! A split is *normal* if it has a special form. For example, both configurations have the period 0 on the side on
//! which they agree (crate closing_test). Rule 110 isn't surjective: its least orphan is 01010. So it is neither
//! injective nor closing on a side: the rings 0 and 1 both become the ring 0. It isn't conserving, since this changes
//! the sum of the ring 1. `ca decide 110` prints this evidence.
//!
//! [`Truths::of`] decides without evidence and needs no memory. [`verdict_bytes`] does this for many rules with
//! consecutive numbers, and writes a byte for each rule. [`next_table`] turns a table into the table of the next
//! number. These functions do cheap tests first. The letters in the table of a surjective or conserving rule have the
//! same mean as all letters of the rule. For a surjective rule, the number of words with the image 0 0 is the number
//! of nodes.
//!
//! [`least_report`] finds the evidence for a rule and weights of its letters. [`certificate`] adds the other parts that
//! the judge of certificates needs: the cover list in version 2 or the reached pairs in version 3, and the exact rank
//! of each pair of nodes (crate pair_rank). [`keeps_sums`], [`least_orphan`] and [`window_or_twins`] answer one question each.
//!
//! Each function takes the time of the functions of other crates that decide its questions. Let a rule have k states,
//! width m and `N = k^(m-1)` nodes. The search for a least orphan and the cover list look at up to `2^N` sets of
//! nodes. Everything else takes time **O(N^4·k^2)** at most.
#![tactic(auto)]

mod certificates;
mod numbers;
mod parts;
mod report;
mod report_room;
mod truths;

pub use certificates::certificate;
pub use numbers::{fault_past_all, next_table, verdict_bytes};
pub use parts::{least_orphan, window_or_twins};
pub use report::{Injectivity, Report, least_report};
pub use report_room::ReportRoom;
pub use truths::{Truths, keeps_sums, rule_of_table};
