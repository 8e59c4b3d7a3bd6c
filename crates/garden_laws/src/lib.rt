//! The Garden of Eden theorem (Moore 1962, Myhill 1963): a rule is surjective if and only if it has no erasable pair
//! of words. Its consequences are here too: which other properties make a rule surjective, and what proves that a
//! rule is surjective.
//!
//! An erasable pair consists of two different words of the same length with the same image, the same first m - 1
//! letters and the same last m - 1 letters. Either word can replace the other in any configuration without a change
//! of the image. The rule that gives 1 only for the window 11 has the erasable pair 000 and 010, whose image is 00.
//! So some word has no preimage, for example 101. The sum of two cells modulo 2 has no erasable pair, since the first
//! letter of a word and its image determine all other letters.
//!
//! Both directions of the theorem are proved by counting preimages. Let N = k^(m - 1). All words of l letters together
//! have N k^l preimages, so each has N on average. Let w be a word with c preimages. Any two preimages of w, one behind
//! the other, are a preimage of a word w v w, where v has m - 1 letters. So the N words w v w together have c^2
//! preimages. If c is greater than N, one of them has more than c preimages. If c is less than N, one of them has fewer
//! than c. First suppose that there is an orphan, which is a word without a preimage. Then another word of its length
//! has more than N preimages, so some longer word has more than N^2. Two of these preimages have the same ends, so they
//! are an erasable pair. Now suppose that there is an erasable pair. Write one of its words N times in a row, and
//! replace any one of these N words by the other word of the pair. The image stays the same, so it has more than N
//! preimages. Then another word of its length has fewer than N, so some longer word has none.
//!
//! An erasable pair is also a walk of pairs of nodes of the de Bruijn graph. A first pair on the right consists of two
//! nodes that two different letters reach from the same node, along edges with equal labels. A pair of nodes is reached
//! if walks with equal labels lead to it from a first pair on the right. A pair list is a list of pairs of two
//! different nodes. It has all first pairs on the right, and each pair to which a step leads from a pair of the list.
//!
//! The functions of this crate do nothing. The contract of each function states a law. The lemmas only use
//! definitions. Both the deciders and the checker of certificates use them.
#![tactic(auto)]

mod tables;

ghost use Rattle.std.specs.Prelude.{◌≢◌, ◌↔◌, ℕ, List};
ghost use Rattle.word_image.specs.LocalRules.{LocalRule, IsRule};
ghost use Rattle.word_image.specs.Words.{IsSurjective};
ghost use Rattle.word_image.specs.Graphs.{first_of, second_of};
ghost use Rattle.word_image.specs.Erasure.{IsErasable};
ghost use Rattle.word_image.specs.PairLists.{IsPairList};
ghost use Rattle.tail_config.specs.Tails.{IsInjective, IsRightClosing, IsLeftClosing};
ghost use Rattle.garden_laws.specs.ReachedPairs.{IsReached};
ghost use Rattle.garden_laws.specs.Preinjective.{IsPreinjective};
ghost use Rattle.garden_laws.specs.Preimages.{IsBalanced};

pub use tables::{conserving_has_mean, even_has_mean, surjective_is_even};

/// Law (the Garden of Eden theorem): a rule is surjective if and only if it has no erasable pair. An erasable pair
/// consists of two different words of the same length with the same image and the same ends of m - 1 letters.
pub fn surjective_erases_nothing()
    ensures { (r : LocalRule) → IsRule r → (IsSurjective r ↔ ((x y : List ℕ) → ¬ IsErasable r x y)) }
{}

/// Law: a rule is surjective if and only if no two different configurations that agree far to the left and far to the
/// right share an image. This is the Garden of Eden theorem for configurations with periodic tails.
pub fn surjective_is_preinjective()
    ensures { (r : LocalRule) → IsRule r → (IsSurjective r ↔ IsPreinjective r) }
{}

/// Law: an injective rule is surjective (Amoroso and Patt 1972). A rule that closes on a side is surjective, too.
pub fn injective_or_closing_is_surjective()
    ensures injective { (r : LocalRule) → IsRule r → IsInjective r → IsSurjective r }
    ensures right { (r : LocalRule) → IsRule r → IsRightClosing r → IsSurjective r }
    ensures left { (r : LocalRule) → IsRule r → IsLeftClosing r → IsSurjective r }
{}

/// Law: a rule is surjective if and only if every word has exactly k^(m - 1) preimages (Hedlund 1969).
pub fn surjective_is_balanced()
    ensures { (r : LocalRule) → IsRule r → (IsSurjective r ↔ IsBalanced r) }
{}

/// Law: a rule is surjective if and only if no reached pair of nodes has two equal nodes. A rule that has a pair list
/// is surjective. The head of this file defines both terms.
pub fn surjective_reaches_no_equal_nodes()
    ensures reached { (r : LocalRule) → IsRule r → (IsSurjective r ↔ ((p : ℕ) → IsReached r p → first_of r p ≢ second_of r p)) }
    ensures list { (r : LocalRule) (pairs : List ℕ) → IsRule r → IsPairList r pairs → IsSurjective r }
{}
