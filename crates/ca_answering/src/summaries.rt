//! Answers to questions that count, for each property, the rules that have it.
ghost use Rattle.std.specs.Prelude.{◌≡◌, ℕ, List, ◌+◌, ◌^◌, ◌<◌, ◌≤◌, None, length, reverse, IfOk, pos};
ghost use Rattle.word_image.specs.LocalRules.{LocalRule, IsRule, IsShape, value};
ghost use Rattle.rule_verdicts.specs.Numbers.{numbered_rule, numbers_fault, AreVerdictBytes};
ghost use Rattle.rule_text.specs.RuleTexts as texts;
ghost use Rattle.ca_questions.specs.Questions.{Question};
ghost use Rattle.ca_questions.specs.Counts.{AreCounts};
ghost use Rattle.ca_questions.specs.Findings.{IsFinding};
ghost use Rattle.ca_questions.specs.Values.{counts_of, finding_of};
ghost use Rattle.ca_answering.specs.ClassTallies.{IsClassTally};
ghost use Rattle.ca_questions.specs.Samples.{survey_rules, sample_rules};
ghost use Rattle.ca_questions.specs.QuestionValues.{AreNumbered, AreDrawn};

use crate::class_tally::ClassTally;
use crate::generator::Generator;
use crate::tally;
use ca_questions::{Counts, Drawn, Finding, Numbered};
use flux_conserve::letter_sum;
use rule_text::numbered;
use rule_verdicts::{Truths, next_table, rule_of_table, verdict_bytes};
use std::alloc::{AllocError, Global};
use word_image::{MOST_ENTRIES, Rule};

/// The greatest number of rules that one question counts.
const MOST_RULES: usize = 4096;

/// Counts for each property how many of the rules with these numbers have it. It needs no memory.
pub fn survey(rules: Numbered) -> Finding<'static>
    requires { AreNumbered rules }
    ensures { IsFinding (Question.Summary (survey_rules rules.states rules.width rules.first rules.count)) (finding_of result) }
{
    summary(counts_of_numbers(rules.states, rules.width, rules.first, rules.count))
}

/// Counts for each property how many of the rules that a generator draws from a seed have it. It needs no memory.
pub fn sample(rules: Drawn) -> Finding<'static>
    requires { AreDrawn rules }
    ensures { IsFinding (Question.Summary (sample_rules rules.states rules.width rules.seed rules.count)) (finding_of result) }
{
    summary(counts_of_draws(rules.states, rules.width, rules.seed, rules.count))
}

/// Makes the answer that has these counts.
fn summary(counts: Counts) -> Finding<'static>
    ensures { (rules : List LocalRule) → AreCounts rules (counts_of counts) → IsFinding (Question.Summary rules) (finding_of result) }
{
    Finding::Summary(counts)
}

/// Counts for each property how many of the rules with these numbers have it, and counts the classes of these rules.
/// It decides each class only once.
pub fn classes(alloc: Global, rules: Numbered) -> Result<Finding<'static>, AllocError>
    requires { AreNumbered rules }
    ensures { IfOk result (λ found. IsFinding (Question.Classes (survey_rules rules.states rules.width rules.first rules.count)) (finding_of found)) }
{
    let tally = classes_of_numbers(alloc, rules.states, rules.width, rules.first, rules.count)?;
    Ok(tally.finding())
}

/// Returns the counts for the rules with `count` consecutive numbers, starting at `first`.
fn counts_of_numbers(k: u8, m: u8, first: u128, count: u16) -> Counts
    requires accepted { numbers_fault k m first count ≡ None }
    requires some { 1 ≤ count }
    requires few { count ≤ 4096 }
    ensures { AreCounts (survey_rules k m first count) (counts_of result) }
{
    let mut bytes = [0; MOST_RULES];
    let bytes = &mut bytes[..usize::from(count)];
    verdict_bytes(k, m, first, bytes).unwrap();
    counts_of_bytes(k, m, first, bytes)
}

/// Returns the counts for the rules with consecutive numbers, starting at `first`. `bytes` has one byte for each rule,
/// with its verdicts.
fn counts_of_bytes(k: u8, m: u8, first: u128, bytes: &[u8]) -> Counts
    requires accepted { numbers_fault k m first (length bytes.now) ≡ None }
    requires bytes { AreVerdictBytes k m first bytes.now }
    requires few { length bytes.now ≤ 4096 }
    ensures { AreCounts (survey_rules k m first (length bytes.now)) (counts_of result) }
{
    let mut counts = tally::no_rules();
    for byte in bytes {
        tally::add(&mut counts, &Truths::from_byte(*byte));
    }
    counts
}

/// Returns the counts and the classes for the rules with `count` consecutive numbers, starting at `first`.
fn classes_of_numbers(
    alloc: Global,
    k: u8,
    m: u8,
    first: u128,
    count: u16,
) -> Result<ClassTally, AllocError>
    requires accepted { numbers_fault k m first count ≡ None }
    requires some { 1 ≤ count }
    requires few { count ≤ 4096 }
    ensures { IfOk result (IsClassTally k m (survey_rules k m first count)) }
{
    let rule = first_rule(k, m, first, count);
    let mut table = [0; MOST_ENTRIES];
    let table = &mut table[..rule.table().len()];
    table.copy_from_slice(rule.table());
    classes_from(alloc, k, m, table, count)
}

/// Returns the rule with the number `first`. `count` rules have consecutive numbers, and this is the first of them.
fn first_rule(k: u8, m: u8, first: u128, count: u16) -> Rule
    requires accepted { numbers_fault k m first count ≡ None }
    requires some { 1 ≤ count }
    ensures { result ≡ numbered_rule k m first }
{
    match numbered(k, m, 0, first) {
        Ok(rule) => rule,
        Err(_) => unreachable!(),
    }
}

/// Returns the counts and the classes for `count` rules with consecutive numbers. `table` is the table of the first
/// rule. The function changes it to the tables of the other rules, one after another.
fn classes_from(
    alloc: Global,
    k: u8,
    m: u8,
    table: &mut [u8],
    count: u16,
) -> Result<ClassTally, AllocError>
    requires rule { IsRule (texts.rule_of_table k m table.old) }
    requires states { k ≤ 6 }
    requires room { value k (reverse table.old) + count ≤ k ^ length table.old }
    requires few { count ≤ 4096 }
    ensures { IfOk result (IsClassTally k m (survey_rules k m (value k (reverse table.old)) count)) }
{
    let mut total = letter_sum(table);
    let mut tally = ClassTally::new(alloc);
    for _place in 0..count {
        tally.add(&rule_of_table(k, m, table))?;
        total = next_table(k, table, total);
    }
    Ok(tally)
}

/// Returns the counts for the first `count` rules that a generator draws from the seed.
fn counts_of_draws(k: u8, m: u8, seed: u64, count: u16) -> Counts
    requires shape { IsShape k m (pos 0) }
    requires few { count ≤ 4096 }
    ensures { AreCounts (sample_rules k m seed count) (counts_of result) }
{
    let size = usize::from(k).pow(u32::from(m));
    let mut table = [0; MOST_ENTRIES];
    counts_in(k, m, seed, count, &mut table[..size])
}

/// Returns the same counts as `counts_of_draws`. Draws each table into `table`, in place of the table before.
fn counts_in(k: u8, m: u8, seed: u64, count: u16, table: &mut [u8]) -> Counts
    requires shape { IsShape k m (pos 0) }
    requires few { count ≤ 4096 }
    requires long { length table.old ≡ k ^ m }
    ensures { AreCounts (sample_rules k m seed count) (counts_of result) }
{
    let mut generator = Generator::from_seed(seed);
    let mut counts = tally::no_rules();
    for _i in 0..count {
        generator.fill(table, k);
        tally::add(&mut counts, &Truths::from_table(k, m, table));
    }
    counts
}
