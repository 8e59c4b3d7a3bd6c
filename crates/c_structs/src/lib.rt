//! The structs that C gets: verdicts, reports, rules and faults as numbers and letters.
//!
//! Each struct has the layout of C and contains no pointer. The words of a report follow each other in one buffer of
//! letters. Each word has a *row*: the place of its first letter in the buffer, and its number of letters. For
//! example, if the buffer begins with the orphan 01010, the row of the orphan has the place 0 and the length 5.
//! A [`RowRoom`] makes a report and its buffer. [`RuleVerdicts`] has only the verdicts of a rule, without
//! evidence. A [`DegreeRoom`] finds the degree of a rule, its multipliers, and the words with the fewest last nodes and
//! first nodes.
//!
//! The page of the crate cert_conditions explains the kinds of evidence for a verdict: orphans, windows, twins,
//! look-aheads, splits, fluxes and rings.
//!
//! A fault has a number. If there are several faults, the first one counts:
//!
//! | Number | Fault | From |
//! |---|---|---|
//! | 1 to 6 | a fault of a rule: states, width, nodes, offset, length, letter | [`fault_number`], [`DegreeRoom::find`] |
//! | 1 to 9 | a fault of the text of a rule, or of rules with consecutive numbers: 1 to 6 as in the first line, 7 kind, 8 number, 9 form | [`number_of`] |
//! | 14, 15 | a fault of the length of the words of a sum: the words have no letter, or there are more than 16 words | [`range_number`] |
//! | 18 | there isn't one weight for each letter | [`RowRoom::report`] |
//! | 19 to 21 | a fault of a configuration: a period, a letter, or a place out of reach | [`write_image`] |
//! | 23 | the window of cell 0 doesn't have the cell by which configurations are moved | [`write_moved`] |
//!
//! A *shape* is a number of states and a width. [`next_rule`] finds the rules of a shape that have a property, one
//! rule in each call. A *byte of verdicts* has a bit for each property: 1 for surjective, 2 for injective, 4 for
//! right-closing, 8 for left-closing, 16 for open and 32 for conserving. The number of a property is its bit.
//! [`property_of`] returns the property with a number.
//!
//! For n letters, a report takes the time of `ca_answering::report`, and **O(n)** more. Only [`RowRoom::new`] and [`DegreeRoom::new`] take memory. For a rule of width m, [`write_image`] writes n letters in time **O(n m)**, and it
//! also reads each letter of the configuration once. A ring and a word can be passed to it as parts of a
//! configuration.
#![tactic(auto)]

mod degree_room;
mod images;
mod letter_rows;
mod moved;
mod next_rules;
mod numbered_verdicts;
mod report_parts;
mod row_room;
mod rule_degrees;
mod rule_parts;
mod rule_reports;
mod rule_sums;
mod table_verdicts;

pub use degree_room::DegreeRoom;
pub use images::{TailParts, image_of_ring, image_of_word, write_image};
pub use letter_rows::{LetterRow, SplitRows, TailRows, TwinRows};
pub use moved::{MovedConfigs, write_moved};
pub use next_rules::{letters_of, next_rule, property_of, shape_rule, write_table};
pub use numbered_verdicts::{joined, number_of};
pub use report_parts::MOST_NODES;
pub use row_room::RowRoom;
pub use rule_degrees::RuleDegree;
pub use rule_parts::{RuleParts, read_rule};
pub use rule_reports::RuleReport;
pub use rule_sums::range_number;
pub use table_verdicts::{RuleVerdicts, fault_number};
