//! The test whether all letters occur equally often in a table, as they do for every surjective rule.
ghost use Rattle.std.specs.Prelude.{◌≡◌, ◌==◌, ◌≤◌, ◌↔◌, length, count_by, IsTrue};
ghost use Rattle.word_image.specs.LocalRules.{LocalRule, IsRule, most_states, most_windows};
ghost use Rattle.word_image.specs.Words.{IsSurjective};
ghost use Rattle.garden_laws.specs.Tables.{IsEven};

/// Returns whether all k letters occur equally often in a table. If they don't, no rule with this table is
/// surjective.
pub fn is_even(k: u8, table: &[u8]) -> bool
    requires states { k ≤ most_states }
    requires few { length table.now ≤ most_windows }
    ensures even { IsTrue result ↔ IsEven k table.now }
    ensures surjective { (r : LocalRule) → IsRule r → r.states ≡ k → r.table ≡ table.now → IsSurjective r → IsTrue result }
{
    for letter in 0..k {
        if u16::from(k) * how_often(letter, table) != table.len() as u16 {
            return false;
        }
    }
    true
}

/// Returns how often a letter occurs in a table.
fn how_often(letter: u8, table: &[u8]) -> u16
    requires { length table.now ≤ most_windows }
    ensures count { result ≡ count_by (λ a. a == letter) table.now }
    ensures most { result ≤ most_windows }
{
    let mut count = 0;
    for a in table {
        count += u16::from(*a == letter);
    }
    count
}
