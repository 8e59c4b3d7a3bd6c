//! Questions about rules, as values and not as texts.
ghost use Rattle.std.specs.Prelude.{◌≡◌, ◌≤◌, ◌^◌, ℕ, None, Some, IfOk, MatchOption, MatchResult};
ghost use Rattle.rule_verdicts.specs.Numbers.{numbers_fault};
ghost use Rattle.ca_questions.specs.QuestionValues.{AreDrawn, AreNumbered};
ghost use Rattle.ca_questions.specs.Samples.{sample_fault};

use crate::short_list::ShortList;
use cert_values::CertVersion;
use rule_text::{TextFault, check_shape, numbered};
use rule_verdicts::fault_past_all;
use tail_config::LentTail;
use word_image::Rule;

/// A question. Some questions have weights; if none are given, each letter weighs its own value. A configuration stands
/// in the room in which it was read.
#[derive(Drop)]
pub enum Question<'w> {
    /// What are the verdicts of the rule under these weights, each with the least evidence?
    Report(Rule, Option<ShortList>),
    /// What is the certificate of this version for the rule and these weights?
    Certify(CertVersion, Rule, Option<ShortList>),
    /// What is the least orphan of the rule?
    Orphan(Rule),
    /// What is the Wolfram number of the rule?
    Number(Rule),
    /// What is the mirrored rule?
    Reflect(Rule),
    /// What is the rule if the cells at both ends of its window that it ignores are left out?
    Trim(Rule),
    /// What is the rule whose window is this many cells further to the right?
    Shift(Rule, i8),
    /// What is the same map as a rule of this width?
    Widen(Rule, u8),
    /// What is the rule with new names for its letters? Letter a gets the name at place a.
    Permute(Rule, ShortList),
    /// What is the composition of two rules, the second rule after the first?
    Compose(Rule, Rule),
    /// What is the rule with the least Wolfram number in the class of the rule?
    Least(Rule),
    /// What is the second-order lift of the rule, whose letters are pairs of the letters of the rule?
    Lift(Rule),
    /// What is the rule that undoes the second-order lift?
    Unlift(Rule),
    /// What is the map that computes the cells of a configuration from its image under the rule?
    Inverse(Rule),
    /// What is the least automaton of the words that have a preimage under the rule?
    Language(Rule),
    /// Do both rules have the same orphans?
    Same(Rule, Rule),
    /// What is the least erasable pair of the rule? These are two words that can replace each other in any
    /// configuration without a change of the image.
    Erase(Rule),
    /// What is a preimage of this configuration under the rule?
    Preimage(Rule, LentTail<'w>),
    /// How many of the rules with these numbers have each property?
    Survey(Numbered),
    /// How many of the rules that a generator draws from this seed have each property?
    Sample(Drawn),
    /// How many of the rules with these numbers have each property, and how many classes do these rules have?
    Classes(Numbered),
}

/// Consecutive Wolfram numbers of rules of the same shape, whose offset is 0.
#[derive(Clone, Copy, Debug)]
pub struct Numbered {
    pub states: u8,
    pub width: u8,
    pub first: u128,
    pub count: u16,
}

impl Numbered {
    /// Makes `count` consecutive numbers, starting at `first`. None as `first` stands for a number of 2^128 or more.
    /// Returns the first fault of the shape, or else the fault of the last number, if there is one.
    pub fn of(k: u8, m: u8, first: Option<u128>, count: u16) -> Result<Numbered, TextFault>
        requires some { 1 ≤ count }
        requires few { count ≤ 4096 }
        ensures accepted { IfOk result AreNumbered }
        ensures numbers { (n : ℕ) → MatchOption first (2 ^ 128 ≤ n) (λ number. number ≡ n) → MatchResult result
            (λ rules. rules ≡ record { states = k; width = m; first = n; count = count })
            (λ fault. numbers_fault k m n count ≡ Some fault) }
    {
        let Some(first) = first else {
            return Err(fault_past_all(k, m));
        };
        let Some(last) = first.checked_add(u128::from(count - 1)) else {
            return Err(fault_past_all(k, m));
        };
        numbered(k, m, 0, last)?;
        Ok(Numbered {
            states: k,
            width: m,
            first,
            count,
        })
    }
}

/// The first rules that a generator draws from a seed. All of them have the same shape, with offset 0.
#[derive(Clone, Copy, Debug)]
pub struct Drawn {
    pub states: u8,
    pub width: u8,
    pub seed: u64,
    pub count: u16,
}

impl Drawn {
    /// Makes the first `count` rules of this shape that a generator draws from the seed. Returns the first fault of the
    /// shape, if it has one.
    pub fn of(k: u8, m: u8, seed: u64, count: u16) -> Result<Drawn, TextFault>
        requires few { count ≤ 4096 }
        ensures accepted { IfOk result AreDrawn }
        ensures seed { MatchResult result
            (λ rules. (sample_fault k m ≡ None) × (rules ≡ record { states = k; width = m; seed = seed; count = count }))
            (λ fault. sample_fault k m ≡ Some fault) }
    {
        check_shape(k, m, 0)?;
        Ok(Drawn {
            states: k,
            width: m,
            seed,
            count,
        })
    }
}
