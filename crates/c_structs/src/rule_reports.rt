//! The report of a rule with its evidence, as a struct of C and a buffer of letters.
ghost use Rattle.std.specs.Prelude.{◌≡◌, ◌≤◌, [], vec_capacity};
ghost use Rattle.rule_verdicts.specs.Reports.{evidence_of};
ghost use Rattle.c_structs.specs.LetterRooms.{most_report};
ghost use Rattle.c_structs.specs.Reports.{IsReportOf, letters_in, no_report};

use crate::letter_rows::{LetterRow, NO_ROW, NO_SPLIT, NO_TWINS, SplitRows, TwinRows};
use crate::report_parts::{MOST_NODES, add_conserving, add_injective, add_side, add_surjective};
use rule_verdicts::Report;

/// The verdicts of a rule, each with its least evidence. A verdict is 1 if it holds, and 0 if it doesn't. The words
/// of the evidence are in a buffer of letters.
#[repr(C)]
#[derive(Clone, Copy, Debug)]
pub struct RuleReport {
    /// This is 0 if there is a report. Otherwise it is the number of the first fault, and all fields below are 0.
    pub fault: u8,
    /// Whether every word has a preimage.
    pub surjective: u8,
    /// Whether no two different configurations share an image.
    pub injective: u8,
    /// Whether the rule is right-closing: no two different configurations that agree far to the left share an image.
    pub right: u8,
    /// Whether the rule is left-closing: no two different configurations that agree far to the right share an image.
    pub left: u8,
    /// Whether the rule is right-closing and left-closing.
    pub is_open: u8,
    /// Whether every ring keeps the sum of the weights of its letters.
    pub conserving: u8,
    /// The number of entries of `flux`: one for each node of the rule, or 0 if the rule isn't conserving.
    pub nodes: u8,
    /// If the rule is injective, this many letters of an image determine the letter at `place` of their preimages.
    pub window: u32,
    /// If the rule is injective, the place of the letter that the window determines. Places start at 0.
    pub place: u32,
    /// The least look-ahead on the right, if the rule is right-closing.
    pub right_ahead: u32,
    /// The least look-ahead on the left, if the rule is left-closing. It is the right look-ahead of the mirrored
    /// rule.
    pub left_ahead: u32,
    /// The flux, if the rule is conserving. The entries after it are 0.
    pub flux: [i32; MOST_NODES],
    /// The row of the least orphan, if the rule isn't surjective.
    pub orphan: LetterRow,
    /// The rows of the least twins, if the rule isn't injective.
    pub twins: TwinRows,
    /// The row of the least ring whose image has another sum, if the rule isn't conserving.
    pub ring: LetterRow,
    /// The rows of the least right split, if the rule isn't right-closing.
    pub right_split: SplitRows,
    /// The rows of the least left split, if the rule isn't left-closing.
    pub left_split: SplitRows,
    /// Reserved numbers, which are all 0.
    pub reserved: [u32; 8],
}

impl RuleReport {
    /// Returns the report that has only the number of this fault.
    pub(crate) fn none(fault: u8) -> RuleReport
        ensures { result ≡ no_report fault }
    {
        RuleReport {
            fault,
            surjective: 0,
            injective: 0,
            right: 0,
            left: 0,
            is_open: 0,
            conserving: 0,
            nodes: 0,
            window: 0,
            place: 0,
            right_ahead: 0,
            left_ahead: 0,
            flux: [0; MOST_NODES],
            orphan: NO_ROW,
            twins: NO_TWINS,
            ring: NO_ROW,
            right_split: NO_SPLIT,
            left_split: NO_SPLIT,
            reserved: [0; 8],
        }
    }
}

/// Returns a report in the layout of C, and writes the letters of its words to a list that has room for them.
pub(crate) fn written(letters: &mut Vec<u8>, found: &Report) -> RuleReport
    requires empty { letters.old.items ≡ [] }
    requires room { most_report ≤ vec_capacity letters.old }
    ensures letters { letters.new.items ≡ letters_in (evidence_of found.now) }
    ensures report { IsReportOf letters.new.items (evidence_of found.now) result }
    ensures room { most_report ≤ vec_capacity letters.new }
{
    let surjective = add_surjective(letters, &found.orphan);
    let injective = add_injective(letters, &found.injective);
    let right = add_side(letters, &found.right);
    let left = add_side(letters, &found.left);
    let conserving = add_conserving(letters, &found.rule, &found.conserving);
    let flux = conserving.flux;
    RuleReport {
        fault: 0,
        surjective: surjective.holds,
        injective: injective.holds,
        right: right.holds,
        left: left.holds,
        is_open: right.holds.min(left.holds),
        conserving: conserving.holds,
        nodes: conserving.nodes,
        window: injective.window,
        place: injective.place,
        right_ahead: right.ahead,
        left_ahead: left.ahead,
        flux,
        orphan: surjective.orphan,
        twins: injective.twins,
        ring: conserving.ring,
        right_split: right.split,
        left_split: left.split,
        reserved: [0; 8],
    }
}
