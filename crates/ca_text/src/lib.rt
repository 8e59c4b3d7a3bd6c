//! The texts of findings and of all other replies.
//!
//! A reply is the answer to the words of a command line as a value, and a *finding* is the answer to their question
//! (crate ca_questions). This crate only formats these values. It decides nothing. The definition `reply_text` of
//! specs/Replies.antt says what the text of a reply is, and the function [`write_reply`] writes it.
//!
//! The text of a finding has these lines:
//!
//! - a report has eight lines
//! - an inverse map has four lines
//! - counts of rules have seven lines, and an eighth line if classes are counted
//! - an automaton has two lines, and one more for each class
//! - a certificate is a text without a line end
//! - everything else has one line
//!
//! An accepted certificate has seven lines, and an eighth line if some letter doesn't weigh its own value. All other
//! replies have one line: a cause why a question has no answer, an operand with a fault, a refused certificate, an
//! input that is too long, and words that are no command.
//!
//! The page of the crate cert_conditions explains the kinds of evidence for a verdict: orphans, windows, twins,
//! look-aheads, splits, fluxes and rings.
//!
//! A word is written with a hexadecimal digit for each letter, so letters must be below 16. The law
//! `right_findings_are_writable` of ca_questions says that they are, in each right finding about accepted rules.
//!
//! A text is appended to an [`Output`], which has room for [`MOST_TEXT`] bytes from the start. If the text fits, only
//! the text of a certificate or of a judged certificate can fail for lack of memory. To write a text of n bytes takes
//! **O(n)** time.
#![tactic(auto)]

mod counts;
mod decimals;
mod faults;
mod inverses;
mod languages;
mod output;
mod preimages;
mod replies;
mod report;
mod texts;
mod verdicts;

pub use output::{MOST_TEXT, Output};
pub use replies::{reply_text, write_reply};
