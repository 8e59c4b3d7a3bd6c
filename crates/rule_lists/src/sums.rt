//! Tests whether fixed letters rule out that a rule conserves the sum of every ring.
//!
//! The flux of a conserving rule has a number for each node, which is a word of m - 1 letters. Fixed letters join nodes
//! to trees. Each node has a level, and the levels of two nodes of a tree differ as their numbers do.
ghost use Rattle.std.specs.Prelude.{◌≡◌, ◌≢◌, ◌+◌, ◌*◌, ◌^◌, ◌<◌, ◌≤◌, ℕ, IsTrue};
ghost use Rattle.word_image.specs.LocalRules.{most_windows};
ghost use Rattle.rule_lists.specs.RuledOut.{RulesOut};
ghost use Rattle.rule_lists.specs.Forests.{AreKnown, AreUpTo};
ghost use Rattle.rule_lists.specs.declared.properties.Property.TheVariants.{Conserving};

use crate::forests::{Forest, forest_of};
use crate::letters::FixedLetters;
use word_image::{Rule, Side};

/// Returns true only if no rule with the fixed letters is conserving. Here each letter weighs its own value.
pub(crate) fn rules_out_conserving(shape: &Rule, letters: &FixedLetters) -> bool
    ensures { IsTrue result → RulesOut Conserving shape.now.states shape.now.width letters.now }
{
    let forest = forest_of(shape, letters);
    for window in 0..shape.size() {
        if has_no_letter(shape, letters, &forest, window) {
            return true;
        }
    }
    false
}

/// Returns whether this window shows that no rule with the fixed letters is conserving. It does if its two nodes are in
/// the same tree, and the letter that their levels demand isn't below k or isn't the fixed letter.
fn has_no_letter(shape: &Rule, letters: &FixedLetters, forest: &Forest, window: u16) -> bool
    requires window { window < shape.now.states ^ shape.now.width }
    requires known { AreKnown shape.now letters.now forest.now.trees forest.now.levels }
    requires small { AreUpTo (most_windows * 1048576) forest.now.levels }
    ensures { IsTrue result → RulesOut Conserving shape.now.states shape.now.width letters.now }
{
    let first = usize::from(Side::Left.end_node(shape, window));
    let last = usize::from(Side::Right.end_node(shape, window));
    if forest.trees[first] != forest.trees[last] {
        return false;
    }
    let least = forest.levels[last];
    let level = forest.levels[first] + u32::from(Side::Left.end_letter(shape, window));
    is_no_letter(shape.k(), letters[usize::from(window)], least, level)
}

/// Returns true only if the difference of `level` and `least` isn't a possible letter. If `letter` is below k, only
/// this letter is possible. Otherwise each letter below k is.
fn is_no_letter(k: u8, letter: u8, least: u32, level: u32) -> bool
    requires least { least < 2 ^ 31 }
    requires level { level < 2 ^ 31 }
    ensures { IsTrue result → (a : ℕ) → a < k → (letter < k → a ≡ letter) → a + least ≢ level }
{
    if level < least {
        return true;
    }
    if least + u32::from(k) <= level {
        return true;
    }
    letter < k && least + u32::from(letter) != level
}
