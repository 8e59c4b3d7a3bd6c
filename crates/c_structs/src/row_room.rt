//! The type `RowRoom`, which makes reports in the layout of C, in memory that it allocates once.
ghost use Rattle.std.specs.Prelude.{◌≡◌, [], option_copied, IfOk};
ghost use Rattle.word_image.specs.LocalRules.{IsRule};
ghost use Rattle.c_structs.specs.Reports.{IsReported, named_weights, rule_with};

use crate::rule_reports::{RuleReport, written};
use crate::table_verdicts::fault_number;
use ca_answering::weights_for;
use rule_verdicts::{ReportRoom, least_report};
use std::alloc::{AllocError, Global};
use std::marker::Model;
use word_image::Rule;

/// The number of the fault that there are more or fewer weights than the rule has letters.
const NO_WEIGHTS: u8 = 18;

/// The greatest number of letters of all words of a report.
const MOST_REPORT: usize = 144_410;

/// The memory of reports in the layout of C, some 1 MB, which is allocated once. In contracts it is the letters of the
/// last report's words.
#[derive(Drop)]
pub struct RowRoom {
    // The memory of the words of a report.
    reports: ReportRoom,
    // The letters of the last report's words, with capacity for those of any report.
    letters: Vec<u8>,
}

impl Model for RowRoom {
    ghost use Rattle.std.specs.Prelude.{ℕ, ◌≤◌, List, vec_capacity};
    ghost use Rattle.c_structs.specs.LetterRooms.{most_report};

    ghost Value = { List ℕ };

    ghost view = { λ r. r.letters.items };

    ghost invariant = { λ r. most_report ≤ vec_capacity r.letters };
}

impl RowRoom {
    /// Allocates the memory of a room. The only error is lack of memory.
    pub fn new(alloc: Global) -> Result<RowRoom, AllocError>
        ensures { IfOk result (λ room. room ≡ []) }
    {
        Ok(RowRoom {
            letters: Vec::with_capacity(alloc, MOST_REPORT)?,
            reports: ReportRoom::new(alloc)?,
        })
    }

    /// Returns the report on the rule with these states, width, offset and table. The list of weights has one weight for
    /// each letter. If the list is empty, each letter weighs its own value. If the rule or the list has a fault, the
    /// report has the number of the first fault. The report doesn't depend on earlier ones.
    pub fn report(
        &mut self,
        states: u8,
        width: u8,
        offset: i8,
        table: &[u8],
        weights: &[u8],
    ) -> RuleReport
        ensures { IsReported (rule_with states width offset table.now) (named_weights weights.now) result self.new }
    {
        self.letters.clear();
        match Rule::new(states, width, offset, table) {
            Ok(rule) => self.report_of_rule(&rule, weights),
            Err(fault) => RuleReport::none(fault_number(fault)),
        }
    }

    /// Returns the letters of the last report's words.
    pub fn letters(&self) -> &[u8]
        ensures { result.now ≡ self.now }
    {
        &self.letters
    }

    /// Returns the report on a rule with these weights. If the list of weights is empty, each letter weighs its own
    /// value. The room must be without letters.
    fn report_of_rule(&mut self, rule: &Rule, weights: &[u8]) -> RuleReport
        requires rule { IsRule rule.now }
        requires empty { self.old ≡ [] }
        ensures { IsReported rule.now (named_weights weights.now) result self.new }
    {
        match weights_for(rule, named_weights(weights)) {
            Some(weights) => {
                let found = least_report(&mut self.reports, rule, &weights);
                written(&mut self.letters, &found)
            }
            None => RuleReport::none(NO_WEIGHTS),
        }
    }
}

/// Returns the weights, or None if the list is empty.
fn named_weights(weights: &[u8]) -> Option<&[u8]>
    ensures { option_copied result ≡ named_weights weights.now }
{
    if weights.is_empty() {
        None
    } else {
        Some(weights)
    }
}
