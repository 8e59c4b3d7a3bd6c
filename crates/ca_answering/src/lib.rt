//! The answers to questions about rules. No text is read or written here.
//!
//! [`answer`] takes a question as a value, and calls the function that answers it. It returns a *finding*, which is the
//! answer as a value, or a [`Stop`](ca_questions::Stop). A `Stop` is a *cause* why the question has no answer, or says
//! that there was no memory. The contract of `answer` is `Answers` of ca_questions: the finding or the cause is right,
//! by the definitions `IsFinding` and `IsCauseFor`.
//!
//! Each other function takes the parts of one question. If it needs no memory, it returns a cause and not a `Stop`. If
//! it always has a finding, it returns a [`Finding`](ca_questions::Finding). For example, [`shift`] of rule 110 by 1
//! returns the rule with offset 0. [`shift`] by 16 returns the cause that the offset breaks a limit. [`orphan`] of rule
//! 110 returns 01010, and [`orphan`] of rule 90 returns None. `ca shift 110 01`, `ca shift 110 16`, `ca orphan 110` and
//! `ca orphan 90` print these answers.
//!
//! The page of the crate cert_conditions explains the kinds of evidence for a verdict: orphans, windows, twins,
//! look-aheads, splits, fluxes and rings. The page of the crate ca_questions explains erasable pairs, classes of rules
//! and second-order lifts.
//!
//! [`survey`] and [`classes`] count the rules with consecutive numbers. [`sample`] counts rules that are drawn from a
//! seed: a linear congruential generator draws the letters of their tables from the upper 31 bits of its states (Knuth
//! 1969).
//!
//! The functions that decide are in other crates. Each function here takes the time and the memory of the function
//! that it calls. An answer lends its long lists, such as an orphan, from a [`AnswerRoom`]. Then only a certificate
//! and the classes of many rules need other memory.
#![tactic(auto)]

mod algebra;
mod answering;
mod class_rules;
mod class_tally;
mod generator;
mod inverses;
mod languages;
mod preimages;
mod reports;
mod room;
mod summaries;
mod tally;

pub use algebra::{compose, permute, reflect, shift, trim, widen};
pub use answering::answer;
pub use class_rules::{least, lift, unlift};
pub use inverses::inverse;
pub use languages::{erase, language, same};
pub use preimages::preimage;
pub use reports::{certificate, number, orphan, report, weights_for};
pub use room::AnswerRoom;
pub use summaries::{classes, sample, survey};
