//! Laws of configurations with periodic tails: a determined window excludes twins, a look-ahead excludes splits, and
//! a loop of pairs of nodes gives twins and splits.
//!
//! Twins are two different words of the same length whose rings have the same image. A window (n, c) is determined if
//! words of n + m - 1 letters with the same image have the same letter at place c. Their image has n letters. A rule is
//! injective if it has a determined window, and then it has no twins.
//!
//! A right split consists of two different configurations that share an image and agree to the left of some place. A
//! number n is a right look-ahead if the first m - 1 letters of a word and the first n letters of its image determine
//! the next letter of the word. A rule closes on the right if it has a right look-ahead, and then it has no right
//! split.
//!
//! A right split is normal under four conditions. Both left periods are the letter 0. The middles have the same length.
//! The right periods have the same length. Each right period leads back to the node at which it begins. Here a node is
//! a word of m - 1 letters. The left side of a rule is the right side of the mirrored rule.
//!
//! Rule 170 copies the cell to the right, so it moves every configuration by one cell. It is injective and has no
//! twins. The sum of two cells modulo 2 has the twins 0 and 1: the ring of zeros and the ring of ones both have the
//! image of zeros. It closes on both sides and has no split, since a sum and one of its letters determine the other
//! letter.
//!
//! The functions of this crate do nothing. The contract of each function states a law. The lemmas only use
//! definitions of word_image and tail_config. Both the deciders and the checker of certificates use them.
#![tactic(auto)]

ghost use Rattle.std.specs.Prelude.{◌↔◌, ℕ, List};
ghost use Rattle.word_image.specs.LocalRules.{LocalRule, IsRule, mirrored};
ghost use Rattle.word_image.specs.Rings.{IsTwins};
ghost use Rattle.tail_config.specs.Tails.{TailConfig, IsInjective, IsRightClosing, IsLeftClosing};
ghost use Rattle.tail_config.specs.LeftSplits.{IsLeftSplit};
ghost use Rattle.tail_config.specs.Splits.{IsNormalRightSplit, IsLeastLeftSplit};

/// Law: a rule is injective if and only if it has no twins. Twins are two different words of the same length whose
/// rings have the same image.
pub fn injective_has_no_twins()
    ensures { (r : LocalRule) → IsRule r → (IsInjective r ↔ ((x y : List ℕ) → ¬ IsTwins r x y)) }
{}

/// Law: a rule is right-closing if and only if it has no normal right split. A right split consists of two different
/// configurations that share an image and agree far to the left, and a normal one has a special form. A rule is
/// left-closing if and only if the mirrored rule has no normal right split.
pub fn closing_has_no_split()
    ensures right { (r : LocalRule) → IsRule r → (IsRightClosing r ↔ ((x y : TailConfig) → ¬ IsNormalRightSplit r x y)) }
    ensures left { (r : LocalRule) → IsRule r → (IsLeftClosing r ↔ ((x y : TailConfig) → ¬ IsNormalRightSplit (mirrored r) x y)) }
{}

/// Law: the least normal left split, which is defined as the mirror image of the least normal right split of the mirrored
/// rule, is a left split of the rule itself: two different configurations that share an image and agree on the right.
pub fn left_split_is_split()
    ensures { (r : LocalRule) (x y : TailConfig) → IsRule r → IsLeastLeftSplit r x y → IsLeftSplit r x y }
{}
