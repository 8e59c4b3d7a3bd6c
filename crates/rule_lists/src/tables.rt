//! Tables of letters that a search fills window by window, in a given order.
ghost use Rattle.std.specs.Prelude.{◌≡◌, ◌+◌, ◌-◌, ◌*◌, ◌^◌, ◌<◌, ◌≤◌, ◌↔◌, ℕ, List, IfSome, IsTrue};
ghost use Rattle.word_image.specs.LocalRules.{most_windows};
ghost use Rattle.rule_lists.specs.Tables.{HasLetters, IsPast};
ghost use Rattle.rule_lists.specs.Searches.{AreEntries, IsOrdered, rank_in, size_of};

use crate::asked::Asked;
use crate::letters::FixedLetters;
use word_image::MOST_ENTRIES;

/// The letters of a table, at the values of the windows. Any numbers follow the letters.
pub(crate) type Table = [u8; MOST_ENTRIES];

/// Returns whether a table has all fixed letters at the windows below `size`.
pub(crate) fn has_letters(k: u8, fixed: &FixedLetters, entries: &Table, size: u16) -> bool
    requires { size ≤ most_windows }
    ensures { IsTrue result ↔ HasLetters k size fixed.now entries.now }
{
    for window in 0..usize::from(size) {
        if fixed[window] < k && entries[window] != fixed[window] {
            return false;
        }
    }
    true
}

/// Replaces the letters at the first n windows of the order by the next letters. The last of these letters that can
/// grow grows by 1, and the letters after it aren't known any longer. Returns the number of windows whose letters are
/// known afterwards, which is at most n, or None if there are no next letters.
pub(crate) fn advance(asked: &Asked, entries: &mut Table, n: u16) -> Option<u16>
    requires order { IsOrdered asked.now }
    requires table { AreEntries asked.now entries.old }
    requires within { n ≤ size_of asked.now }
    ensures table { AreEntries asked.now entries.new }
    ensures within { IfSome result (λ i. i ≤ n) }
    ensures next { IfSome result (λ i. rank_in asked.now entries.new i * asked.now.shape.now.states ^ (n - i) ≡ rank_in asked.now entries.old n + 1) }
    ensures past { (t : List ℕ) → AreEntries asked.now t → (rank_in asked.now entries.old n < rank_in asked.now t n) ↔ IsPast asked.now.shape.now.states asked.now.order.now entries.new result t }
{
    let k = asked.shape.k();
    for place in (0..n).rev() {
        let window = usize::from(asked.order[usize::from(place)]);
        if entries[window] < k - 1 {
            entries[window] += 1;
            return Some(place + 1);
        }
    }
    None
}
