//! The faults of a rule's text. The grammar of these texts has three forms: `2:3:-1:t01110110` with a table,
//! `2:3:-1:w110` with a Wolfram number, and only a number, such as `110`.
ghost use Rattle.std.specs.Prelude.{◌≡◌, ◌+◌, ◌^◌, ◌<◌};
ghost use Rattle.rule_text.specs.RuleTexts.{as_text_fault};

use word_image::RuleFault;

/// Why a text isn't the text of an accepted rule.
#[derive(Clone, Copy, Debug, PartialEq, Eq)]
pub enum TextFault {
    /// The text doesn't have one of the forms in the grammar. The number is the length of the text's longest prefix
    /// that can be continued to a text in the grammar.
    Form(usize),
    /// The number of states isn't from 2 to 16.
    States,
    /// The width isn't from 2 to 5.
    Width,
    /// There are more than 16 words of m - 1 letters.
    Nodes,
    /// The window of a cell reaches further than 16 cells to the left or to the right of the cell.
    Offset,
    /// The number form is used for a rule of 7 states or more.
    Kind,
    /// The table doesn't have one letter for each window.
    Length,
    /// The letter at this place of the text isn't below k. It is the first such letter.
    Letter(usize),
    /// No table has this number: it is at least `k^(k^m)`.
    Number,
}

/// Returns the fault of a text if the rule that it describes has the fault `fault`. The letters of the table begin at
/// the place `place` of the text.
pub fn as_text_fault(fault: RuleFault, place: usize) -> TextFault
    requires { place + 2 ^ 16 < 2 ^ 64 }
    ensures { result ≡ as_text_fault place fault }
{
    match fault {
        RuleFault::States => TextFault::States,
        RuleFault::Width => TextFault::Width,
        RuleFault::Nodes => TextFault::Nodes,
        RuleFault::Offset => TextFault::Offset,
        RuleFault::Length => TextFault::Length,
        RuleFault::Letter(index) => TextFault::Letter(place + usize::from(index)),
    }
}
