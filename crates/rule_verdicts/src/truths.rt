//! The type `Truths`: the verdicts on a rule without evidence. Each letter weighs its own value.
ghost use Rattle.std.specs.Prelude.{◌≡◌, ◌↔◌, ◌&&◌, slice_index, IsTrue};
ghost use Rattle.word_image.specs.LocalRules.{LocalRule, IsRule};
ghost use Rattle.word_image.specs.Words.{IsSurjective};
ghost use Rattle.word_image.specs.Rings.{IsConserving};
ghost use Rattle.word_image.specs.Weights.{own_weights};
ghost use Rattle.rule_text.specs.RuleTexts as texts;
ghost use Rattle.rule_verdicts.specs.Truths.{AreTruths, byte_of};

use closing_test::{is_left_closing, is_right_closing};
use debruijn::Graph;
use eden_law::{is_even, is_even_at_zeros, is_surjective};
use flux_conserve::{has_mean, is_conserving, keeps_ends};
use inverse_window::is_injective;
use pair_graph::Pairs;
use pair_rank::Endless;
use word_image::{Rule, Weights};

/// The verdicts on a rule, if each letter weighs its own value.
#[derive(Clone, Copy, Debug, PartialEq, Eq)]
pub struct Truths {
    /// Whether every word has a preimage.
    pub surjective: bool,
    /// Whether no two different configurations share an image.
    pub injective: bool,
    /// Whether the rule is right-closing: no two different configurations that agree far to the left share an image.
    pub right: bool,
    /// Whether the rule is left-closing: no two different configurations that agree far to the right share an image.
    pub left: bool,
    /// Whether every ring keeps the sum of its letters.
    pub conserving: bool,
}

impl Truths {
    /// Decides the verdicts on a rule. Needs no memory.
    pub fn of(rule: &Rule) -> Truths
        ensures { AreTruths rule.now result }
    {
        // The letters in the table of a surjective or conserving rule have the same mean as the letters 0 to k - 1.
        if !has_mean(rule.k(), rule.table()) {
            return Truths::not_surjective(false);
        }
        verdicts_of(rule, may_be_surjective(rule.k(), rule.table()))
    }

    /// Returns the verdicts of the rule of k states, width m and offset 0 with this table. Needs no memory.
    pub fn from_table(k: u8, m: u8, table: &[u8]) -> Truths
        requires { IsRule (texts.rule_of_table k m table.now) }
        ensures { AreTruths (texts.rule_of_table k m table.now) result }
    {
        // This decides most tables before a rule is made.
        if !has_mean(k, table) {
            return Truths::not_surjective(false);
        }
        Truths::past_sum(k, m, table)
    }

    /// Returns the verdicts of the rule of k states, width m and offset 0 with this table. The letters of the table
    /// must have the same mean as the letters 0 to k - 1.
    pub(crate) fn past_sum(k: u8, m: u8, table: &[u8]) -> Truths
        requires { IsRule (texts.rule_of_table k m table.now) }
        ensures { AreTruths (texts.rule_of_table k m table.now) result }
    {
        let even = may_be_surjective(k, table);
        if !even && !keeps_ends(k, table) {
            return Truths::not_surjective(false);
        }
        verdicts_of(&rule_of_table(k, m, table), even)
    }

    /// Returns the verdicts that `byte` turns into this byte.
    pub fn from_byte(byte: u8) -> Truths
        ensures { (t : Truths) → byte ≡ byte_of t → result ≡ t }
    {
        Truths {
            surjective: byte % 2 == 1,
            injective: byte / 2 % 2 == 1,
            right: byte / 4 % 2 == 1,
            left: byte / 8 % 2 == 1,
            conserving: byte / 32 % 2 == 1,
        }
    }

    /// Returns the verdicts of a rule that isn't surjective. It is neither injective nor closing on a side, and
    /// `conserving` says whether it is conserving.
    pub fn not_surjective(conserving: bool) -> Truths
        ensures { (r : LocalRule) → IsRule r → ¬ IsSurjective r → (IsTrue conserving ↔ IsConserving (slice_index (own_weights r.states)) r) → AreTruths r result }
    {
        Truths {
            surjective: false,
            injective: false,
            right: false,
            left: false,
            conserving,
        }
    }

    /// Returns whether the rule is open, which means that it closes on both sides.
    pub fn is_open(&self) -> bool
        ensures { result ≡ (self.now.right && self.now.left) }
    {
        self.right && self.left
    }

    /// Returns the verdicts as one byte: the sum of 1 for surjective, 2 for injective, 4 for right-closing, 8 for
    /// left-closing, 16 for open and 32 for conserving.
    pub fn byte(&self) -> u8
        ensures { result ≡ byte_of self.now }
    {
        u8::from(self.surjective)
            + 2 * u8::from(self.injective)
            + 4 * u8::from(self.right)
            + 8 * u8::from(self.left)
            + 16 * u8::from(self.is_open())
            + 32 * u8::from(self.conserving)
    }
}

/// Returns the rule of k states, width m and offset 0 with this table.
pub fn rule_of_table(k: u8, m: u8, table: &[u8]) -> Rule
    requires { IsRule (texts.rule_of_table k m table.now) }
    ensures { result ≡ texts.rule_of_table k m table.now }
{
    Rule::from_fn(k, m, 0, |window| table[usize::from(window)])
}

/// Returns false only if no rule of k states with this table is surjective. It looks at how often each letter occurs
/// in the table, and at the number of words with the image 0 0.
fn may_be_surjective(k: u8, table: &[u8]) -> bool
    requires { (r : LocalRule) × IsRule r × (r.states ≡ k) × (r.table ≡ table.now) }
    ensures { (r : LocalRule) → IsRule r → r.states ≡ k → r.table ≡ table.now → IsSurjective r → IsTrue result }
{
    let nodes = (table.len() / usize::from(k)) as u8;
    // For two states, the sum of the letters already says how often each letter occurs.
    (k == 2 || is_even(k, table)) && is_even_at_zeros(k, nodes, table)
}

/// Returns the verdicts of a rule. `may_be_surjective` is false only if the rule isn't surjective.
fn verdicts_of(rule: &Rule, may_be_surjective: bool) -> Truths
    requires { IsSurjective rule.now → IsTrue may_be_surjective }
    ensures { AreTruths rule.now result }
{
    let conserving = keeps_sums(rule);
    if !may_be_surjective {
        return Truths::not_surjective(conserving);
    }
    let graph = Graph::of(rule);
    // A rule that is injective or closes on a side is surjective. So this test decides the other verdicts, too.
    if !is_surjective(&graph) {
        return Truths::not_surjective(conserving);
    }
    let endless = Endless::from_pairs(&Pairs::from_graph(graph));
    Truths {
        surjective: true,
        injective: is_injective(&endless),
        right: is_right_closing(&endless),
        left: is_left_closing(&endless),
        conserving,
    }
}

/// Returns whether every ring keeps the sum of its letters. Needs no memory.
pub fn keeps_sums(rule: &Rule) -> bool
    ensures sums { IsTrue result ↔ IsConserving (slice_index (own_weights rule.now.states)) rule.now }
    ensures rule { IsRule rule.now }
{
    let (k, table) = (rule.k(), rule.table());
    if !has_mean(k, table) {
        return false;
    }
    if !keeps_ends(k, table) {
        return false;
    }
    is_conserving(rule, &Weights::own(k))
}
