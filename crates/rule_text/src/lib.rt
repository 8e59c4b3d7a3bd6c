//! The texts of a rule: reading and printing them, and the Wolfram number.
//!
//! A rule with k states, width m and offset o has three kinds of text:
//!
//! | Form | Text | Meaning |
//! |---|---|---|
//! | bare | 1 to 39 decimal digits | the same rule as the text `2:3:-1:w` followed by these digits |
//! | table | `K:M:O:t` and hexadecimal digits of either case | the digits are the table's letters, by window value |
//! | number | `K:M:O:w` and 1 to 39 decimal digits | the digits write the Wolfram number of the rule |
//!
//! K, M and O are k, m and o in decimal, each with one or two digits. O may have a minus sign before them. The Wolfram
//! number is a sum over all windows: the letter for the window times k to the power of the window's value. So `110`,
//! `2:3:-1:w110` and `2:3:-1:t01110110` are texts of the same rule. `ca number 110`, `ca number 2:3:-1:w110` and `ca
//! number 2:3:-1:t01110110` print the same number.
//!
//! A text is in the grammar if it has one of these forms. The part `K:M:O:` and `t` or `w` is called its head, and
//! the digits after the head are its entries. The shape of a rule is its k, m and o together. A shape is accepted if
//! it keeps the limits of word_image. `parse` reads the head part by part, and then the entries that the head
//! announces. A call takes **O(n + k^m)** time for a text of n bytes, and no memory. Only `print` needs memory, for
//! its text.
//!
//! `parse_beginning` reads the beginning of a table text: a head with `t`, and the first letters of a table. It
//! stands for all rules whose table begins with these letters.
//!
//! `numbered` makes a rule from a shape and a number, without a text, and `check_shape` only checks the shape.
//! `is_decimal`, `decimal_number` and `decimal_offset` read the decimal operands of commands.
#![tactic(auto)]

mod beginnings;
mod decimals;
mod digits;
mod fault_kinds;
mod head;
mod parsing;
mod parts;
mod printing;
mod text_fault;
mod wolfram_numbers;

pub use beginnings::{Beginning, parse_beginning};
pub use decimals::{decimal_number, decimal_offset, is_decimal};
pub use fault_kinds::{fault_kind, fault_name, fault_place};
pub use parsing::parse;
pub use printing::{number, print, printed_text_is_read};
pub use text_fault::TextFault;
pub use wolfram_numbers::{check_shape, numbered};
