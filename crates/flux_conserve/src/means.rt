//! Properties of the table of every conserving rule: the mean of its letters, and the letters for the first and the
//! last window. A rule is conserving if every ring has the same sum as its image.
ghost use Rattle.std.specs.Prelude.{◌≡◌, ◌+◌, ◌-◌, ◌*◌, ◌<◌, ◌≤◌, ◌↔◌, length, slice_index, sum, IsTrue};
ghost use Rattle.word_image.specs.LocalRules.{LocalRule, IsRule, most_windows};
ghost use Rattle.word_image.specs.Rings.{IsConserving};
ghost use Rattle.garden_laws.specs.Tables.{HasMean};

/// Returns whether the mean of the letters of a table is (k - 1) / 2, the mean of the letters 0 to k - 1. If it
/// isn't, and each letter weighs its own value, a rule with this table changes the sum of some ring.
pub fn has_mean(k: u8, table: &[u8]) -> bool
    requires { length table.now ≤ most_windows }
    ensures mean { IsTrue result ↔ HasMean k table.now }
    ensures conserving { (r : LocalRule) → IsRule r → r.states ≡ k → r.table ≡ table.now → IsConserving (λ a. a) r → IsTrue result }
{
    is_mean(k, table.len() as u16, letter_sum(table))
}

/// Returns whether the mean of `count` letters with this sum is (k - 1) / 2.
pub fn is_mean(k: u8, count: u16, sum: u16) -> bool
    ensures { IsTrue result ↔ (2 * sum + count ≡ k * count) }
{
    2 * u32::from(sum) + u32::from(count) == u32::from(k) * u32::from(count)
}

/// Returns the sum of at most 256 letters.
pub fn letter_sum(letters: &[u8]) -> u16
    requires { length letters.now ≤ most_windows }
    ensures { result ≡ sum letters.now }
{
    let mut sum = 0;
    for letter in letters {
        sum += u16::from(*letter);
    }
    sum
}

/// Returns whether a table has the letter 0 for the window of zeros, and the greatest letter for the window of
/// greatest letters. If it doesn't, and each letter weighs its own value, a rule with this table changes the sum of a
/// ring of one letter.
pub fn keeps_ends(k: u8, table: &[u8]) -> bool
    requires { 0 < length table.now }
    ensures ends { IsTrue result ↔ (slice_index table.now 0 ≡ 0) × (slice_index table.now (length table.now - 1) + 1 ≡ k) }
    ensures conserving { (r : LocalRule) → IsRule r → r.states ≡ k → r.table ≡ table.now → IsConserving (λ a. a) r → IsTrue result }
{
    table[0] == 0 && u16::from(table[table.len() - 1]) + 1 == u16::from(k)
}
