//! The JSON of a reply, for programs that read replies.
//!
//! A *reply* is the answer to the words of a command line, as a value (crate ca_questions). Its JSON is one object
//! without blanks, with its keys in ascending order. The key `status` says which kind of reply it is. The other keys
//! depend on the status:
//!
//! | `status` | Other keys |
//! |---|---|
//! | `done` | `finding` with an object, or `verdicts` with the verdicts of an accepted certificate |
//! | `notfit` | `cause` with an object whose key says why the question has no answer |
//! | `rulefault` | `operand` with the operand's number, `fault` with the fault's kind, `place` if the fault has one |
//! | `refused` | `cause` with a word, `at` with numbers, and `because`, `side`, `key`, `fault` if they exist |
//! | `toolong`, `usage` | no other key |
//!
//! A word is a string of hexadecimal digits. A rule is a string with its text. A configuration is an object with the
//! keys `left`, `middle` and `right`. A number is a number of JSON, except that a Wolfram number is a string of
//! decimal digits, since it may have 128 bits. A kind of fault has the same name as in the printed lines. A
//! certificate is an object, the same object as in its text. The reply to the words `orphan 2:3:-1:w90` is
//!
//! ```text
//! {"finding":{"orphan":null},"status":"done"}
//! ```
//!
//! The page of the crate cert_conditions explains the kinds of evidence for a verdict: orphans, windows, twins,
//! look-aheads, splits, fluxes and rings.
//!
//! The definition `json_of` of specs/Replies.antt says which object a reply is, and [`reply_json`] writes it. The
//! whole object is in memory before its text is made. A text of n bytes takes time O(n log n), since an object is a
//! map, and memory O(n).
#![tactic(auto)]

mod causes;
mod evidence;
mod findings;
mod languages;
mod refusals;
mod replies;
mod values;

pub use replies::reply_json;
