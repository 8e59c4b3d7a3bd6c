//! From the words of a command line to the question that they ask.
//!
//! A **command** is a [`Name`], one word for each of its **rules**, and after these words its **operands**. The name
//! determines the number of rules and the **form** of the operands. For example, the form `Weights` allows a list of
//! weights or no operand. `IsCommand` of specs/Commands.antt defines which words are a command. By this definition a
//! rule may be any word.
//!
//! | Words | Name | Rules | Operands | Form |
//! |---|---|---|---|---|
//! | `orphan 110` | `Orphan` | `110` | | `Nothing` |
//! | `decide 110` | `Decide` | `110` | | `Weights` |
//! | `decide 110 0,2` | `Decide` | `110` | `0,2` | `Weights` |
//! | `shift 110 -3` | `Shift` | `110` | `-3` | `Offset` |
//! | `compose 90 x` | `Compose` | `90`, `x` | | `Nothing` |
//! | `survey 2 3 0 256` | `Survey` | | `2`, `3`, `0`, `256` | `Numbers` |
//! | `check` | `Check` | | | `Nothing` |
//!
//! The words `110`, `orphan`, `orphan 110 90` and `shift 110 x` are no commands. No list of words is two commands.
//!
//! The page of the crate ca_questions explains erasable pairs, classes of rules and second-order lifts.
//!
//! [`question`] reads each operand once, into a value. It first tests the forms of all operands. If the words are no
//! command, it returns `Usage`. Then it reads the rules, from left to right. For example, `compose 90 x` gives
//! `RuleFault` with the number of the operand `x`, which is 2, and with the fault of its text. If the parts of a
//! configuration don't fit the rule, it returns `Tail`. A call takes **O(n)** time for n bytes of words, and no memory:
//! the configuration of `preimage` is read into a room.
#![tactic(auto)]

mod asking;
mod names;
mod operands;
mod short_lists;
mod word_fault;

pub use asking::{is_check, question};
pub use names::Name;
pub use word_fault::WordFault;
