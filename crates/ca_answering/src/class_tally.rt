//! Counts rules with each property, and the classes of these rules. The class of a rule has the rules that differ from
//! it by a mirror and by the names of the letters. Each class is decided only once.
ghost use Rattle.std.specs.Prelude.{◌≡◌, ◌<◌, ◌≤◌, ◌+◌, ℕ, List, [], ◌∷◌, ◌++◌, length, nat_eq, None, All, IfOk, OnOk, pos};
ghost use Rattle.indexmap.specs.IndexMap.{get};
ghost use Rattle.word_image.specs.LocalRules.{LocalRule, IsRule};
ghost use Rattle.rule_classes.specs.ClassVerdicts.{HaveOneVerdict};
ghost use Rattle.rule_verdicts.specs.Truths.{AreTruths};
ghost use Rattle.ca_questions.specs.Questions.{Question};
ghost use Rattle.ca_questions.specs.Findings.{IsFinding};
ghost use Rattle.ca_questions.specs.Values.{finding_of};
ghost use Rattle.ca_answering.specs.ClassTallies.{IsRuleAdded, IsClassTally, IsDecided, rules_in};

use crate::tally;
use ca_questions::{Counts, Finding};
use indexmap::IndexMap;
use rule_classes::class_of;
use rule_text::number;
use rule_verdicts::{Truths, keeps_sums};
use std::alloc::{AllocError, Global};
use word_image::Rule;

/// The counts of the rules so far, and the verdicts on the least rule of each of their classes.
#[derive(Drop)]
pub struct ClassTally {
    counts: Counts,
    // The verdicts of the least rules of the classes, by the Wolfram numbers of these rules, in the order in which
    // they were added.
    leasts: IndexMap<u128, Truths>,
}

impl ClassTally {
    /// Makes the counts for an empty list of rules.
    pub fn new(alloc: Global) -> ClassTally
        ensures { (k m : ℕ) → IsClassTally k m [] result }
    {
        ClassTally {
            counts: tally::no_rules(),
            leasts: IndexMap::new(alloc),
        }
    }

    /// Adds a rule to the counts. The rules so far have the shape of this rule, and there are fewer than 4,096 of
    /// them.
    pub fn add(&mut self, rule: &Rule) -> Result<(), AllocError>
        requires states { rule.now.states ≤ 6 }
        requires tally { (rules : List LocalRule) × IsClassTally rule.now.states rule.now.width rules self.old × (length rules < 4096) }
        ensures { (rules : List LocalRule) → IsClassTally rule.now.states rule.now.width rules self.old →
            OnOk result (IsClassTally rule.now.states rule.now.width (rules ++ rule.now ∷ []) self.new) }
    {
        let place = class_of(rule).unwrap();
        let least = verdicts_of_least(&mut self.leasts, &place.least)?;
        tally::add(
            &mut self.counts,
            &member_truths(rule, place.mirrored, &least),
        );
        Ok(())
    }

    /// Returns the finding with the counts and the number of classes.
    pub fn finding(&self) -> Finding<'static>
        ensures { (k m : ℕ) (rules : List LocalRule) → IsClassTally k m rules self.now → IsFinding (Question.Classes rules) (finding_of result) }
    {
        Finding::Classes(self.counts, self.leasts.len())
    }
}

/// Returns the verdicts on this rule, which is the least rule of a class. If `known` has no verdicts for the Wolfram
/// number of the rule, decides them and stores them in `known` under this number.
fn verdicts_of_least(known: &mut IndexMap<u128, Truths>, rule: &Rule) -> Result<Truths, AllocError>
    requires states { rule.now.states ≤ 6 }
    requires offset { rule.now.offset ≡ pos 0 }
    requires known { All (IsDecided rule.now.states rule.now.width) known.old.entries }
    ensures truths { IfOk result (AreTruths rule.now) }
    ensures known { OnOk result (All (IsDecided rule.now.states rule.now.width) known.new.entries) }
    ensures added { OnOk result (IsRuleAdded rule.now (rules_in rule.now.states rule.now.width known.old.entries) (rules_in rule.now.states rule.now.width known.new.entries)) }
{
    rule.keeps_limits();
    let number = number(rule).unwrap();
    if let Some(truths) = known.get(&number).copied() {
        return Ok(truths);
    }
    let truths = Truths::of(rule);
    keep(known, number, &truths)?;
    Ok(truths)
}

/// Stores the verdicts of a rule under a number that has none yet.
fn keep(known: &mut IndexMap<u128, Truths>, number: u128, truths: &Truths) -> Result<(), AllocError>
    requires { get nat_eq known.old number ≡ None }
    ensures { OnOk result (known.new.entries ≡ known.old.entries ++ (number, truths.now) ∷ []) }
{
    known.insert(number, *truths)?;
    Ok(())
}

/// Returns the verdicts on a rule, given the verdicts on the least rule of its class. Decides again whether rings keep
/// their sums, since new names for the letters change the sums.
fn member_truths(rule: &Rule, mirrored: bool, least: &Truths) -> Truths
    ensures rule { IsRule rule.now }
    ensures truths { (g : LocalRule) → HaveOneVerdict rule.now mirrored g → AreTruths g least.now → AreTruths rule.now result }
{
    let (right, left) = if mirrored {
        (least.left, least.right)
    } else {
        (least.right, least.left)
    };
    Truths {
        surjective: least.surjective,
        injective: least.injective,
        right,
        left,
        conserving: keeps_sums(rule),
    }
}
