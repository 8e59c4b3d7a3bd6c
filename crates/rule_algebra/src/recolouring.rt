//! The function `permute`, which gives new names to the letters of a rule.
ghost use Rattle.std.specs.Prelude.{◌≡◌, ◌<◌, ◌≤◌, ◌^◌, ◌↔◌, length, IfOk, IfErr, IsOk, IsTrue};
ghost use Rattle.word_image.specs.LocalRules.{IsWord, value, word_of, most_states};
ghost use Rattle.rule_algebra.specs.Algebra.{IsRecolouring, IsRecoloured, recoloured};
ghost use Rattle.rule_algebra.specs.MadeImages.{RecoloursImages};
ghost use Rattle.rule_algebra.specs.Tables.{AreOldLetters};

use crate::fault::AlgebraFault;
use word_image::{MOST_STATES, Rule, letter_of, value_by};

/// Returns this rule with its letters renamed. `colours` lists the new name of each letter. For a renamed window the new
/// rule gives the new name of the letter that the given rule gives for the window. So under the new rule the image of a
/// renamed word is the renamed image of the word. The width and the offset stay the same. Returns `NotPermutation` if the
/// colours aren't a permutation of the k letters.
pub fn permute(rule: &Rule, colours: &[u8]) -> Result<Rule, AlgebraFault>
    ensures accepted { IsOk result ↔ IsRecolouring rule.now.states colours.now }
    ensures refused { IfErr result (λ fault. fault ≡ AlgebraFault.NotPermutation) }

    ensures recoloured { IfOk result (IsRecoloured colours.now rule.now) }
    ensures offset { IfOk result (λ g. g.offset ≡ rule.now.offset) }
    ensures images { IfOk result (RecoloursImages colours.now rule.now) }
{
    if !is_recolouring(rule.k(), colours) {
        return Err(AlgebraFault::NotPermutation);
    }
    let letters = old_letters(rule.k(), colours);
    Ok(Rule::from_fn(rule.k(), rule.m(), rule.o(), |window| {
        colours[usize::from(rule.at(recoloured_value(rule, &letters, window)))]
    }))
}

/// Returns whether `colours` is a permutation of the k letters.
fn is_recolouring(k: u8, colours: &[u8]) -> bool
    ensures { IsTrue result ↔ IsRecolouring k colours.now }
{
    if colours.len() != usize::from(k) {
        return false;
    }
    for (place, colour) in colours.iter().enumerate() {
        if *colour >= k || colours[..place].contains(colour) {
            return false;
        }
    }
    true
}

/// Returns for each new name the old letter that gets this name.
fn old_letters(k: u8, colours: &[u8]) -> [u8; MOST_STATES]
    requires some { 0 < k }
    requires few { k ≤ most_states }
    requires colours { IsRecolouring k colours.now }
    ensures { AreOldLetters k colours.now k result }
{
    let mut letters = [0; MOST_STATES];
    for (letter, colour) in colours.iter().enumerate() {
        letters[usize::from(*colour)] = letter as u8;
    }
    letters
}

/// Renames the letters of a window: each letter a becomes `colours[a]`. `window` is the value of the window. Returns
/// the value of the renamed window.
fn recoloured_value(rule: &Rule, colours: &[u8], window: u16) -> u16
    requires colours { IsWord rule.now.states colours.now }
    requires enough { rule.now.states ≤ length colours.now }
    requires window { window < rule.now.states ^ rule.now.width }
    ensures value { result ≡ value rule.now.states (recoloured colours.now
        (word_of rule.now.states rule.now.width window)) }
    ensures within { result < rule.now.states ^ rule.now.width }
{
    let (k, m) = (rule.k(), rule.m());
    value_by(
        k,
        m,
        |place| colours[usize::from(letter_of(k, m, window, place))],
    )
}
