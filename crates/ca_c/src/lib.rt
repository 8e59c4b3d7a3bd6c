//! The interface for C: nineteen functions with C's calling convention, in a static library.
//!
//! | Function | What it does |
//! |---|---|
//! | [`ca_run`] | carries out a command as the program does, over bytes in memory |
//! | [`ca_run_json`] | carries out a command and writes the reply as JSON |
//! | [`ca_rule_of`] | reads the text of a rule |
//! | [`ca_verdicts`] | decides all questions about a rule, without a text |
//! | [`ca_report`] | decides all questions about a rule, with the least evidence for each answer |
//! | `ca_image` | writes letters of the image of a configuration |
//! | [`ca_verdict_bytes`] | decides all questions about rules with consecutive numbers, one byte for each rule |
//! | [`ca_window_order`] | writes the order of windows in which [`ca_next_rule`] can search |
//! | [`ca_next_rule`] | finds the rules of a shape that have a property, one rule in each call |
//! | [`ca_kept_sums`] | finds all sums of weights that a rule keeps |
//! | [`ca_flux`] | writes the flux of one such sum |
//! | [`ca_moved`] | finds the configurations that a rule only moves |
//! | [`ca_degree`] | finds the degree of a rule, its multipliers, and the fewest last nodes and first nodes that a word has |
//! | [`ca_room_open`] | takes the memory of a room, which calls can use again and again |
//! | [`ca_room_close`] | gives back the memory of a room |
//! | [`ca_run_in`] | does what [`ca_run`] does, over a room |
//! | [`ca_report_in`] | does what [`ca_report`] does, over a room |
//! | [`ca_degree_in`] | does what [`ca_degree`] does, over a room |
//! | [`ca_version`] | returns the version of the interface |
//!
//! The file include/ca.h declares these functions for C.
//!
//! The words of a command line come in one *block*: the bytes of all words, with a 0 byte after each word. For
//! example, the words `orphan` and `110` are the eleven bytes `orphan`, 0, `110`, 0. The output goes into a buffer of
//! the caller:
//!
//! | Words | Buffer | Code | Length | The buffer afterwards |
//! |---|---|---|---|---|
//! | `orphan`, `90` | 20 bytes | 0 | 15 | `surjective yes`, a line end, and 5 bytes as they were |
//! | `orphan`, `90` | 10 bytes | 10 | 15 | as it was |
//! | none | 20 bytes | 2 | 12 | `usage error`, a line end, and 8 bytes as they were |
//! | a block that ends in `9` | 20 bytes | 9 | 0 | as it was |
//!
//! No function keeps a pointer or has a state. The result of a call depends only on its arguments and on whether
//! there is memory. It doesn't depend on what a room served before. For n bytes of words and output, [`ca_run`] takes
//! the time and the memory of `ca_cli::reply` and **O(n)** more of both. [`ca_run_json`] takes as much memory, and
//! **O(n log n)** more time than `ca_cli::reply`. For n letters, [`ca_report`] takes the time and the memory of
//! `ca_answering::report` and **O(n)** more of both. [`ca_degree`] takes some 1 MB of memory, and **O(2^N (k + N))** time
//! for the N words of m - 1 letters. A call over a room takes less memory, since the room has the memory for long lists.
//! All other calls take no memory, except that [`ca_room_open`] takes the memory of a room, some 17 MB.
#![tactic(auto)]

mod blocks;
mod calls;
mod degree_exports;
mod exports;
mod moved_export;
mod room_exports;
mod sources;

pub use c_structs::{RuleDegree, RuleReport, RuleVerdicts};
pub use degree_exports::{ca_degree, ca_degree_in};
pub use exports::{
    ca_flux, ca_kept_sums, ca_next_rule, ca_report, ca_rule_of, ca_run, ca_run_json,
    ca_verdict_bytes, ca_verdicts, ca_version, ca_window_order,
};
pub use moved_export::ca_moved;
pub use room_exports::{ca_report_in, ca_room_close, ca_room_open, ca_run_in};
