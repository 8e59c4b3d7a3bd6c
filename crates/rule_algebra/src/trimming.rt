//! The function `trim`, which removes the cells at the ends of the window that a rule ignores.
ghost use Rattle.std.specs.Prelude.{◌≡◌, ◌<◌, ◌↔◌, IsTrue};
ghost use Rattle.word_image.specs.LocalRules.{IsRule};
ghost use Rattle.rule_algebra.specs.Algebra.{Ignores, IsTrimmed};
ghost use Rattle.rule_algebra.specs.Tables.{without_first, DropsFirsts};

use crate::parts::rule_of_parts;
use word_image::{Rule, Side};

/// Returns the rule without the cells at its ends that it ignores. While the width is above 2 and the rule ignores its
/// first cell, drops this cell and adds 1 to the offset. Then drops ignored cells at the right end in the same way. The
/// width stays at least 2. The image of every configuration stays the same.
pub fn trim(rule: &Rule) -> Rule
    ensures { IsTrimmed rule.now result }
{
    let trimmed = without_firsts(rule);
    without_firsts(&trimmed.reflect()).reflect()
}

/// Drops the first cell of a rule as long as the rule ignores it and the width is above 2. Returns the remaining rule.
fn without_firsts(rule: &Rule) -> Rule
    ensures dropped { DropsFirsts rule.now result }
    ensures rules { IsRule rule.now × IsRule result }
{
    let mut rest = *rule;
    for _dropped in 0..rule.m() - 2 {
        if !ignores_first(&rest) {
            return rest;
        }
        rest = without_first(&rest);
    }
    rest
}

/// Returns whether the first letter of a window never changes the letter that the rule gives.
fn ignores_first(rule: &Rule) -> bool
    ensures ignores { IsTrue result ↔ Ignores rule.now 1 0 }
    ensures rule { IsRule rule.now }
{
    for window in 0..rule.size() {
        if rule.at(window) != rule.at(u16::from(Side::Right.end_node(rule, window))) {
            return false;
        }
    }
    true
}

/// Returns the rule without its first cell. For a window, the new rule gives the letter that the old rule gives for a 0
/// followed by this window.
fn without_first(rule: &Rule) -> Rule
    requires { 2 < rule.now.width }
    ensures { result ≡ without_first rule.now }
{
    let rows = &rule.table()[..usize::from(rule.nodes())];
    rule_of_parts(rule.k(), rule.m() - 1, rule.o() + 1, rows)
}
