//! The type `Best`: the least rule that the search has found so far, that is, the one with the least Wolfram number. A
//! colouring renames the letters of a rule, which may be mirrored first.
ghost use Rattle.std.specs.Prelude.{◌≡◌, ◌≤◌, false};
ghost use Rattle.word_image.specs.LocalRules.{IsRule};
ghost use Rattle.rule_classes.specs.Colourings.{IsColouring, in_colours};
ghost use Rattle.rule_classes.specs.Best.{IsBest};

use crate::colourings::Colouring;
use word_image::{MOST_ENTRIES, Rule};

/// The least rule that the search has found so far.
#[derive(Clone, Copy)]
pub struct Best {
    /// The colouring that turns the given rule into this one.
    pub colouring: Colouring,
    /// The letters of the table of the rule, followed by zeros.
    pub entries: [u8; MOST_ENTRIES],
}

impl Best {
    /// Returns the start of a search: the best rule so far is the given rule, in which each letter keeps its name.
    pub fn own(rule: &Rule) -> Best
        requires states { rule.now.states ≤ 6 }
        ensures straight { result.colouring.mirrored ≡ false }
        ensures best { IsBest rule.now result }
    {
        let mut entries = [0; MOST_ENTRIES];
        let size = usize::from(rule.size());
        entries[..size].copy_from_slice(rule.table());
        Best {
            colouring: Colouring::unchanged(false),
            entries,
        }
    }

    /// Replaces the best rule by the rule that `colouring` makes from `rule`.
    pub fn take(&mut self, rule: &Rule, colouring: Colouring)
        requires rule { IsRule rule.now }
        requires states { rule.now.states ≤ 6 }
        requires best { IsBest rule.now self.old }
        requires colouring { IsColouring rule.now.states colouring }
        ensures colouring { self.new.colouring ≡ colouring }
        ensures best { IsBest rule.now self.new }
    {
        self.colouring = colouring;
        colouring.fill(rule, &mut self.entries);
    }

    /// Returns the best rule, with offset 0. `rule` is the rule whose class is searched.
    pub fn rule(&self, rule: &Rule) -> Rule
        requires { IsBest rule.now self.now }
        ensures { result ≡ in_colours rule.now self.now.colouring }
    {
        let size = usize::from(rule.size());
        Rule::new(rule.k(), rule.m(), 0, &self.entries[..size]).unwrap()
    }
}
