//! Laws of lists of rules: ranks distinguish rules, a search lists each rule once, and fixed letters rule out
//! properties.
//!
//! Some letters of a table are fixed in advance. A rule is listed if it has the shape, the offset 0, the property and
//! all fixed letters. Its rank is the number whose digits are its letters in a given order of the windows. Fixed
//! letters lead from a pair of nodes to another pair along two windows with the same fixed letter.
ghost use Rattle.std.specs.Prelude.{◌≡◌, ◌≢◌, ◌+◌, ◌/◌, ◌%◌, ◌^◌, ◌<◌, ◌≤◌, ◌↔◌, ℕ, ℤ, List, Contains, None, length, slice_index, slice_set};
ghost use Rattle.word_image.specs.LocalRules.{LocalRule, IsRule, node_count};
ghost use Rattle.word_image.specs.Graphs.{first_of, second_of};
ghost use Rattle.word_image.specs.Words.{IsSurjective};
ghost use Rattle.word_image.specs.Rings.{IsConserving};
ghost use Rattle.word_image.specs.declared.side.Side.{Side};
ghost use Rattle.word_image.specs.declared.side.Side.TheVariants.{Right, Left};
ghost use Rattle.tail_config.specs.Tails.{IsInjective};
ghost use Rattle.tail_laws.specs.Closing.{IsClosing};
ghost use Rattle.rule_lists.specs.Ranks.{IsOrder, rank};
ghost use Rattle.rule_lists.specs.Listed.{IsOfShape, IsListed, at_offset};
ghost use Rattle.rule_lists.specs.Properties.{Has};
ghost use Rattle.rule_lists.specs.Calls.{AreAll, AreListed};
ghost use Rattle.rule_lists.specs.Completions.{IsCompletion};
ghost use Rattle.rule_lists.specs.Reached.{IsFixedReached};
ghost use Rattle.rule_lists.specs.Forests.{AreKnown};
ghost use Rattle.rule_lists.specs.EndlessPairs.{AreEndlessOn, IsFixedEndless};
ghost use Rattle.rule_lists.specs.declared.properties.Property.{Property};

/// Law: two rules of a shape, both with offset 0, are equal if they have the same rank.
pub fn one_rule_of_a_rank()
    ensures { (k m : ℕ) (order : List ℕ) (q r : LocalRule) → IsOrder (k ^ m) order → IsOfShape k m q → IsOfShape k m r → rank k order q.table ≡ rank k order r.table → q ≡ r }
{}

/// Law: suppose that a search returns the listed rule of least rank, then the next one, and so on, until there is
/// none. Then it returns exactly the listed rules, each once.
pub fn calls_list_each_rule_once()
    ensures { (property : Property) (k m : ℕ) (fixed order : List ℕ) (rules : List LocalRule) → IsOrder (k ^ m) order → AreAll property k m fixed order None rules → AreListed property k m fixed order rules }
{}

/// Law: suppose that no letter is fixed at a window. Then a rule is listed if and only if, for some letter a, it is
/// listed after a has also been fixed at this window. Only one letter a is possible. So the lists for all letters a are
/// parts of the whole list, and add up to it.
pub fn parts_add_up()
    ensures every { (property : Property) (k m : ℕ) (fixed : List ℕ) (w : ℕ) (r : LocalRule) → w < k ^ m → w < length fixed → k ≤ slice_index fixed w
        → IsListed property k m fixed r ↔ ((a : ℕ) × (a < k) × IsListed property k m (slice_set fixed w a) r) }
    ensures once { (property : Property) (k m : ℕ) (fixed : List ℕ) (w a b : ℕ) (r : LocalRule) → w < k ^ m → w < length fixed → a < k → b < k
        → IsListed property k m (slice_set fixed w a) r → IsListed property k m (slice_set fixed w b) r → a ≡ b }
{}

/// Law: suppose that fixed letters lead from a pair of two equal nodes, first by two different letters, to a pair of
/// two equal nodes. Then two different words with the same ends have the same image under each rule with these letters,
/// so no such rule is surjective.
pub fn fixed_erasable_pair_forbids_surjective()
    ensures { (r s : LocalRule) (letters : List ℕ) (p : ℕ) → IsRule r → IsFixedReached r letters p → first_of r p ≡ second_of r p → IsCompletion r.states r.width letters s → ¬ IsSurjective s }
{}

/// Law: take a pair of two different nodes. Suppose that fixed letters lead on from this pair for ever, both forward
/// and backward. Then no rule with these letters is injective.
pub fn fixed_endless_nodes_forbid_injective()
    ensures { (r s : LocalRule) (letters on back : List ℕ) (p : ℕ) → IsRule r → AreEndlessOn Right r letters (Contains on) → AreEndlessOn Left r letters (Contains back)
        → Contains on p → Contains back p → first_of r p ≢ second_of r p → IsCompletion r.states r.width letters s → ¬ IsInjective s }
{}

/// Law: suppose that the two nodes of a window are in the same tree of a forest for the fixed letters. Such a forest
/// gives a level to each node. Within a tree, the levels of two nodes differ as the numbers of these nodes in a flux
/// do. Then the levels determine the letter that each conserving rule with the fixed letters gives for this window.
pub fn levels_give_letters_of_conserving()
    ensures { (r s : LocalRule) (letters trees levels : List ℕ) (w : ℕ) → IsRule r → AreKnown r letters trees levels → IsCompletion r.states r.width letters s → IsConserving (λ a. a) s → w < r.states ^ r.width
        → slice_index trees (w / r.states) ≡ slice_index trees (w % node_count r) → slice_index s.table w + slice_index levels (w % node_count r) ≡ w / node_count r + slice_index levels (w / r.states) }
{}

/// Law: take two windows with the same fixed letter that differ only in the letter at their end on this side. The nodes
/// at this end are a pair. Suppose that fixed letters lead on for ever from this pair. Then no rule with these letters
/// closes on this side.
pub fn fixed_endless_first_pair_forbids_closing()
    ensures { (side : Side) (r s : LocalRule) (letters on : List ℕ) (w a : ℕ) → IsRule r → AreEndlessOn side r letters (Contains on) → IsFixedEndless side r letters (Contains on) w a
        → IsCompletion r.states r.width letters s → ¬ IsClosing side s }
{}

/// Law: no property depends on the offset. So a listed rule has the property at every offset.
pub fn offset_tells_nothing()
    ensures { (property : Property) (r : LocalRule) (o : ℤ) → IsRule r → IsRule (at_offset r o) → (Has property r ↔ Has property (at_offset r o)) }
{}
