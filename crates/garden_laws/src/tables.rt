//! Laws of tables: a property of the table of every surjective rule, and of the table of every conserving rule.
//!
//! A node is a word of m - 1 letters. In the table of a surjective rule all letters occur equally often, since every
//! word of one letter has as many preimages as there are nodes (Hedlund 1969). For the same reason, the number of words
//! with the image 0 0 is the number of nodes.
//!
//! In the table of a conserving rule the mean of the letters is (k - 1) / 2, which is the mean of all k letters. The
//! reason is a flux, which cancels out over all windows together. Rule 184 conserves the sum, and its table 0 0 0 1 1 1
//! 0 1 has as many ones as zeros. Rule 110 has five ones in its table, so it changes the sum of some ring, and some
//! word has no preimage.
//!
//! Several deciders use these laws.
ghost use Rattle.std.specs.Prelude.{◌≡◌, ◌-◌, length, slice_index};
ghost use Rattle.word_image.specs.LocalRules.{LocalRule, IsRule, node_count};
ghost use Rattle.word_image.specs.Words.{IsSurjective};
ghost use Rattle.word_image.specs.Rings.{IsConserving};
ghost use Rattle.garden_laws.specs.Tables.{IsEven, HasMean};
ghost use Rattle.garden_laws.specs.ZeroPairs.{zero_pairs};

/// Law: in the table of a surjective rule all letters occur equally often, and the number of words with the image 0 0
/// is the number of nodes.
pub fn surjective_is_even()
    ensures table { (r : LocalRule) → IsRule r → IsSurjective r → IsEven r.states r.table }
    ensures zeros { (r : LocalRule) → IsRule r → IsSurjective r → zero_pairs r.states r.table ≡ node_count r }
{}

/// Law: if a rule conserves the sum of the letters of every ring, the mean of the letters in its table is (k - 1) / 2.
/// Such a rule gives 0 for the window of zeros, and the letter k - 1 for the window of letters k - 1.
pub fn conserving_has_mean()
    ensures mean { (r : LocalRule) → IsRule r → IsConserving (λ a. a) r → HasMean r.states r.table }
    ensures zeros { (r : LocalRule) → IsRule r → IsConserving (λ a. a) r → slice_index r.table 0 ≡ 0 }
    ensures greatest { (r : LocalRule) → IsRule r → IsConserving (λ a. a) r → slice_index r.table (length r.table - 1) ≡ r.states - 1 }
{}

/// Law: if all k letters occur equally often in a table, the mean of its letters is (k - 1) / 2.
pub fn even_has_mean()
    ensures { (r : LocalRule) → IsRule r → IsEven r.states r.table → HasMean r.states r.table }
{}
