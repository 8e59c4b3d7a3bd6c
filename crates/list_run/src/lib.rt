//! The program that lists all rules of a shape that have a property.
//!
//! The two words of the command line are the name of a *property* and a *beginning*. A beginning is a table text with
//! any number of digits, and stands for all rules whose table begins with these digits. The list has a line for each
//! of these rules that has the property. Its last line is the number of rules. The words
//!
//! ```text
//! injective 2:3:-1:t0
//! ```
//!
//! give the list
//!
//! ```text
//! 2:3:-1:t00001111
//! 2:3:-1:t01010101
//! 2:3:-1:t00110011
//! rules 3
//! ```
//!
//! [`run`] writes each line when it finds the rule. So a list of any length only needs memory for one line and for an
//! order of the windows: **O(k^m)** bytes. It takes the time of the search of rule_lists and **O(k^m)** for each
//! line.
#![tactic(auto)]

mod cut;
mod lines;
mod listing;
mod status;
mod theorems;
mod top_call;

pub use status::Status;
pub use theorems::printed_rules_have_the_property;
pub use top_call::run;
