//! The properties by which rules can be listed.
ghost use Rattle.std.specs.Prelude.{◌≡◌, ◌↔◌, IsTrue};
ghost use Rattle.rule_lists.specs.Properties.{Has};
ghost use Rattle.tail_config.specs.Tails.{IsOpen};
ghost use Rattle.word_image.specs.Rings.{IsConserving};

use closing_test::{is_left_closing, is_right_closing};
use debruijn::Graph;
use eden_law::is_surjective;
use flux_conserve::is_conserving;
use inverse_window::is_injective;
use pair_graph::Pairs;
use pair_rank::Endless;
use word_image::{Rule, Weights};

/// A property by which rules can be listed.
#[derive(Clone, Copy, Debug, PartialEq, Eq)]
pub enum Property {
    /// Every word has a preimage.
    Surjective,
    /// No two different configurations share an image.
    Injective,
    /// No two different configurations that agree far to the left share an image.
    RightClosing,
    /// No two different configurations that agree far to the right share an image.
    LeftClosing,
    /// The rule closes on both sides.
    Open,
    /// Every ring keeps the sum of its letters.
    Conserving,
}

/// Returns whether a rule has the property.
pub fn has(property: Property, rule: &Rule) -> bool
    ensures { IsTrue result ↔ Has property rule.now }
{
    match property {
        Property::Surjective => is_surjective(&Graph::of(rule)),
        Property::Injective => is_injective(&endless(rule)),
        Property::RightClosing => is_right_closing(&endless(rule)),
        Property::LeftClosing => is_left_closing(&endless(rule)),
        Property::Open => is_open(&endless(rule)),
        Property::Conserving => keeps_sums(rule),
    }
}

/// Returns whether the rule closes on both sides.
fn is_open(endless: &Endless) -> bool
    ensures { IsTrue result ↔ IsOpen endless.now }
{
    is_right_closing(endless) && is_left_closing(endless)
}

/// Returns whether every ring keeps the sum of its letters.
fn keeps_sums(rule: &Rule) -> bool
    ensures { IsTrue result ↔ IsConserving (λ a. a) rule.now }
{
    is_conserving(rule, &Weights::own(rule.k()))
}

/// Returns the endless pairs of a rule: the pairs of nodes from which, forward or backward, walks of every length with
/// equal labels lead.
fn endless(rule: &Rule) -> Endless
    ensures { result ≡ rule.now }
{
    Endless::from_pairs(&Pairs::of(rule))
}
