//! The struct `RuleParts`, a rule for C, and the function that reads it from a text.
ghost use Rattle.std.specs.Prelude.{◌≡◌, ◌-◌, ◌≤◌, ◌++◌, length, replicate};
ghost use Rattle.c_structs.specs.RuleParts.{AreParts, IsRuleCall};

use crate::numbered_verdicts::number_of;
use rule_text::parse;
use word_image::{MOST_ENTRIES, Rule};

/// A rule, in the layout of C.
#[repr(C)]
#[derive(Clone, Copy, Debug)]
pub struct RuleParts {
    /// The number of letters, from 2 to 16.
    pub states: u8,
    /// The number of cells in a window, from 2 to 5.
    pub width: u8,
    /// The place of the first cell of a window, counted from the cell of the image.
    pub offset: i8,
    /// The number of windows, from 4 to 256.
    pub table_length: u16,
    /// The letter for each window, by the value of the window. After them come zeros.
    pub table: [u8; MOST_ENTRIES],
}

impl RuleParts {
    /// Returns the parts of a rule.
    pub fn of(rule: &Rule) -> RuleParts
        ensures { AreParts result rule.now }
    {
        rule.keeps_limits();
        RuleParts {
            states: rule.k(),
            width: rule.m(),
            offset: rule.o(),
            table_length: rule.size(),
            table: padded(rule.table()),
        }
    }
}

/// Returns these letters, followed by zeros.
fn padded(letters: &[u8]) -> [u8; MOST_ENTRIES]
    requires { length letters.now ≤ 256 }
    ensures { result ≡ letters.now ++ replicate (256 - length letters.now) 0 }
{
    let mut table = [0; MOST_ENTRIES];
    table[..letters.len()].copy_from_slice(letters);
    table
}

/// Reads the text of a rule into `rule`. Returns 0, or the number of the text's first fault, from 1 to 9. After a fault
/// `rule` stays as it was.
pub fn read_rule(text: &[u8], rule: &mut RuleParts) -> u8
    ensures { IsRuleCall text.now rule.old result rule.new }
{
    match parse(text) {
        Ok(found) => {
            *rule = RuleParts::of(&found);
            0
        }
        Err(fault) => number_of(fault),
    }
}
