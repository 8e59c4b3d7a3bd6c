//! The degree of a rule with what belongs to it, as a struct of C and a buffer of letters.
ghost use Rattle.std.specs.Prelude.{◌≡◌, ◌≤◌, ◌*◌, ℕ, List, [], vec_capacity};
ghost use Rattle.word_image.specs.LocalRules.{IsRule};
ghost use Rattle.welch_index.specs.Fewest.{IsFewestLast, IsFewestFirst};
ghost use Rattle.c_structs.specs.Degrees.{IsDegreeOf, SaysDegree, no_degree};

use crate::letter_rows::{LetterRow, NO_ROW, add_word};
use welch_index::{Degree, Search, degree_from_counts};
use word_image::{Rule, Side};

/// The degree of a rule, its multipliers, and the fewest last nodes and first nodes that a word has. The two words that
/// have so few are in a buffer of letters. If the rule isn't surjective, the degree and the multipliers are 0.
#[repr(C)]
#[derive(Clone, Copy, Debug)]
pub struct RuleDegree {
    /// This is 0 if there are numbers. Otherwise it is the number of the first fault, and all fields below are 0.
    pub fault: u8,
    /// The degree: the least number of preimages of a periodic configuration.
    pub degree: u8,
    /// The fewest last nodes that a word has.
    pub right: u8,
    /// The fewest first nodes that a word has.
    pub left: u8,
    /// The greatest number of ends of walks that begin at one node and spell one word.
    pub right_multiplier: u8,
    /// The right multiplier of the mirrored rule.
    pub left_multiplier: u8,
    /// The last nodes of the right word: bit u stands for node u.
    pub right_nodes: u16,
    /// The first nodes of the left word: bit u stands for node u.
    pub left_nodes: u16,
    /// Reserved numbers, which are all 0.
    pub reserved: [u8; 6],
    /// The row of the least word with the fewest last nodes.
    pub right_word: LetterRow,
    /// The row of the word with the fewest first nodes that is least if words are read from right to left.
    pub left_word: LetterRow,
}

impl RuleDegree {
    /// Returns the struct that has only the number of this fault.
    pub(crate) fn none(fault: u8) -> RuleDegree
        ensures { result ≡ no_degree fault }
    {
        RuleDegree {
            fault,
            degree: 0,
            right: 0,
            left: 0,
            right_multiplier: 0,
            left_multiplier: 0,
            right_nodes: 0,
            left_nodes: 0,
            reserved: [0; 6],
            right_word: NO_ROW,
            left_word: NO_ROW,
        }
    }
}

/// Returns the numbers of a rule, and writes the two words to a list that has room for them.
pub(crate) fn numbers_of(letters: &mut Vec<u8>, search: &mut Search, rule: &Rule) -> RuleDegree
    requires rule { IsRule rule.now }
    requires empty { letters.old.items ≡ [] }
    requires room { 2 * 65535 ≤ vec_capacity letters.old }
    ensures numbers { IsDegreeOf rule.now result letters.new.items }
    ensures room { 2 * 65535 ≤ vec_capacity letters.new }
{
    let right = search.run(rule, Side::Right);
    let right_word = add_word(letters, search.word());
    let left = search.run(rule, Side::Left);
    let left_word = add_word(letters, search.word());
    let numbers = degree_or_zeros(rule, right.count, left.count);
    RuleDegree {
        fault: 0,
        degree: numbers.degree,
        right: right.count,
        left: left.count,
        right_multiplier: numbers.right_multiplier,
        left_multiplier: numbers.left_multiplier,
        right_nodes: right.nodes,
        left_nodes: left.nodes,
        reserved: [0; 6],
        right_word,
        left_word,
    }
}

/// Returns the degree and the multipliers of a rule with these fewest last nodes and these fewest first nodes. Returns
/// zeros if the rule isn't surjective.
fn degree_or_zeros(rule: &Rule, right: u8, left: u8) -> Degree
    requires right { (nodes : ℕ) × (w : List ℕ) × IsFewestLast rule.now right nodes w }
    requires left { (nodes : ℕ) × (w : List ℕ) × IsFewestFirst rule.now left nodes w }
    ensures { SaysDegree rule.now result.degree result.right_multiplier result.left_multiplier }
{
    match degree_from_counts(rule, right, left) {
        Some(degree) => degree,
        None => Degree {
            degree: 0,
            right_multiplier: 0,
            left_multiplier: 0,
        },
    }
}
