//! Laws of the verdicts for all configurations, which are all functions from the integers to letters. The other
//! crates state the verdicts for words, rings and configurations with periodic tails, which can be written down. The
//! laws of this crate show that both kinds of statements are equivalent.
//!
//! The image of a configuration has at each place the letter that the rule gives for the window of this place. Two
//! configurations are near each other if they agree from -n to n for a large n. In this sense a map is open, or its
//! images are dense. Two configurations agree far to the left if they agree at every place to the left of some place. A
//! node is a word of m - 1 letters. A split consists of two different configurations with the same image that agree far
//! to the left (a right split) or far to the right (a left split). A rule closes on a side if it has no split on this
//! side.
//!
//! Rule 90, the sum of the two neighbours, closes on both sides: every configuration near the image of x is the image
//! of a configuration near x. Rule 30 is surjective and has a right split: its images are dense, but its map isn't
//! open.
//!
//! A determined window says that n letters of an image determine one letter of a preimage. A look-ahead says that
//! m - 1 letters and n letters of the image determine the next letter. Both are statements about words, so they hold
//! for the words of every configuration. Therefore injective, closing and preinjective mean the same for all
//! configurations as for configurations with periodic tails. Surjective means that the images are dense. Conserving
//! means that finite configurations keep their sums.
//!
//! A rule that closes on both sides is open. Let n be a right look-ahead and l = m - 2 + n. A walk writes the labels of
//! its edges. Suppose that a walk from a node writes a word of l letters. Then for each letter b some walk from the
//! node writes this word followed by b. The reason is a count. Take a word x of l + m - 1 letters that begins with the
//! node, and a letter b. Put b into x right after the node. The image of the longer word has l + 1 letters. By the
//! look-ahead it determines b and the image of x. So walks from the node write at least as many words of l + 1 letters
//! as there are words that consist of an image of such an x and a letter. No other words of l + 1 letters can be
//! written, so none of these words is missed. Hence a configuration that agrees with an image at l places can be
//! followed to the right for ever, and with a left look-ahead to the left.
//!
//! Conversely, suppose that an open rule has a right split. Take several configurations with the same image, and follow
//! one of them far to the right, and then each half of the split. Since the map is open, this gives one more with a
//! common image, and so on. But an open rule is surjective, so at most k^(m - 1) configurations have the same image.
//!
//! An injective rule is open, so it maps the configurations one-to-one onto all configurations, and the rings of each
//! length, too. It has an inverse map. The composition of two rules is surjective, injective, closing on a side or
//! open if and only if both rules are.
//!
//! Under a surjective rule at most k^(m - 1) different configurations have the same image. So each preimage x of a
//! periodic configuration is periodic. To see this, take the nodes of x at places that are one period of the image
//! apart. Among k^(m - 1) + 1 of these nodes two are equal. Repeat the part of x between these two for ever, and you
//! have a periodic preimage z. Suppose that x differs from z on the right. Take z to the left of a node and x to the
//! right of it, and move this configuration by one period of z, by two, and so on. All these configurations have the
//! same image, and all differ, so there are too many. So x is periodic to the right of the node, and there are such
//! nodes as far to the left as you like.
//!
//! Each ring, repeated often enough, is the image of a ring. Take a preimage of a long repetition. Two of its nodes
//! that are whole repetitions apart are equal. The part between them is a ring, and its image is the first ring,
//! repeated a few times.
//!
//! No law uses the law of the excluded middle. That a surjective rule maps onto all configurations can't be proved
//! without a part of this law, and `surjective_is_onto` says which part.
//!
//! The functions of this crate do nothing. The contract of each function states a law.
#![tactic(auto)]

ghost use Rattle.std.specs.Prelude.{◌≡◌, ◌↔◌, ◌+◌, ◌-◌, ◌*◌, ◌<◌, ◌≤◌, ℕ, List, length, take, slice_index, ℤ, pos, ◌+ℤ◌, ◌-ℤ◌};
ghost use Rattle.std.specs.List.{repeat};
ghost use Rattle.word_image.specs.LocalRules.{LocalRule, IsRule, IsWord, local_map, node_count};
ghost use Rattle.word_image.specs.Words.{IsSurjective, image};
ghost use Rattle.word_image.specs.Windows.{IsDetermined, IsRightAhead};
ghost use Rattle.word_image.specs.Sides.{IsLeftAhead};
ghost use Rattle.word_image.specs.Rings.{IsConserving, IsFlux, IsRing, ring_image};
ghost use Rattle.tail_config.specs.Tails.{IsInjective, IsRightClosing, IsLeftClosing, IsOpen};
ghost use Rattle.tail_config.specs.InverseMaps.{WindowMap, IsInverseMap, map_letter, mapped};
ghost use Rattle.tail_config.specs.Configs.{Config, IsConfig, run, image_of};
ghost use Rattle.config_laws.specs.Maps.{IsInjectiveMap, IsRightClosingMap, IsLeftClosingMap, IsPreinjectiveMap, IsRightContinuingMap, IsLeftContinuingMap, IsDenseMap, IsOntoMap, IsBijectiveMap, IsOpenMap, IsEvenlyOpenMap, AreMany};
ghost use Rattle.config_laws.specs.OneOfTwo.{OneOfTwo, AllOrNot};
ghost use Rattle.config_laws.specs.Repeating.{IsOntoTails};
ghost use Rattle.config_laws.specs.Periodic.{HasPeriod, IsOntoPeriodic, HasPeriodicPreimages};
ghost use Rattle.config_laws.specs.Sums.{weight_on, flow_under, KeepsFiniteSums, KeepsChanges};
ghost use Rattle.config_laws.specs.Composed.{IsOneAfter, IsUndoneBy};
ghost use Rattle.config_laws.specs.RingMaps.{IsBijectiveOnRings, IsOntoRings};

/// Law: a rule is injective if and only if no two different configurations have the same image. The reason is a
/// determined window: n letters of the image of any configuration determine one letter of the configuration.
pub fn injective_everywhere()
    ensures exactly { (r : LocalRule) → IsRule r → (IsInjective r ↔ IsInjectiveMap r) }
    ensures window { (r : LocalRule) (n c : ℕ) (x y : Config) (i : ℤ) → IsRule r → IsDetermined r n c → IsConfig r.states x → IsConfig r.states y → run (image_of r x) i n ≡ run (image_of r y) i n → x (i +ℤ r.offset +ℤ pos c) ≡ y (i +ℤ r.offset +ℤ pos c) }
{}

/// Law: a rule closes on the right if and only if no two different configurations that agree far to the left have the
/// same image. It closes on the left if and only if no two that agree far to the right have the same image. The reason
/// is a look-ahead: m - 1 letters of a configuration and n letters of its image determine the next letter.
pub fn closing_everywhere()
    ensures right { (r : LocalRule) → IsRule r → (IsRightClosing r ↔ IsRightClosingMap r) }
    ensures left { (r : LocalRule) → IsRule r → (IsLeftClosing r ↔ IsLeftClosingMap r) }
    ensures ahead { (r : LocalRule) (n : ℕ) (x y : Config) (i : ℤ) → IsRule r → IsRightAhead r n → IsConfig r.states x → IsConfig r.states y → run x (i +ℤ r.offset) (r.width - 1) ≡ run y (i +ℤ r.offset) (r.width - 1) → run (image_of r x) i n ≡ run (image_of r y) i n → x (i +ℤ r.offset +ℤ pos (r.width - 1)) ≡ y (i +ℤ r.offset +ℤ pos (r.width - 1)) }
    ensures left_ahead { (r : LocalRule) (n : ℕ) (x y : Config) (i : ℤ) → IsRule r → IsLeftAhead r n → IsConfig r.states x → IsConfig r.states y → run x (i +ℤ r.offset +ℤ pos 1) (r.width - 1) ≡ run y (i +ℤ r.offset +ℤ pos 1) (r.width - 1) → run (image_of r x) (i +ℤ pos 1 -ℤ pos n) n ≡ run (image_of r y) (i +ℤ pos 1 -ℤ pos n) n → x (i +ℤ r.offset) ≡ y (i +ℤ r.offset) }
{}

/// Law (the Garden of Eden theorem for all configurations): a rule is surjective if and only if no two different
/// configurations that agree far to the left and far to the right have the same image.
pub fn surjective_is_preinjective_everywhere()
    ensures { (r : LocalRule) → IsRule r → (IsSurjective r ↔ IsPreinjectiveMap r) }
{}

/// Law: a rule is surjective if and only if no image has more than k^(m - 1) different preimages (Hedlund 1969).
pub fn surjective_is_few_to_one()
    ensures { (r : LocalRule) → IsRule r → (IsSurjective r ↔ ((xs : ℕ → Config) → ¬ AreMany r (node_count r) xs)) }
{}

/// Law: a rule is surjective if and only if its images are dense: on every finite part, each configuration agrees
/// with some image.
pub fn surjective_is_dense()
    ensures { (r : LocalRule) → IsRule r → (IsSurjective r ↔ IsDenseMap r) }
{}

/// Law: if `OneOfTwo` holds, a rule is surjective if and only if each configuration is an image. `OneOfTwo` is a form
/// of the lesser limited principle of omniscience. It speaks of two tests of natural numbers, each of which passes at n
/// if it passes at n + 1. If at each number at least one test passes, then one of the tests passes at all numbers.
/// `OneOfTwo` follows from the law of the excluded middle. It is also necessary: it holds if every surjective rule maps
/// onto all configurations.
pub fn surjective_is_onto()
    ensures exactly { OneOfTwo → (r : LocalRule) → IsRule r → (IsSurjective r ↔ IsOntoMap r) }
    ensures onto { (r : LocalRule) → IsRule r → IsOntoMap r → IsSurjective r }
    ensures follows { AllOrNot → OneOfTwo }
    ensures needed { ((r : LocalRule) → IsRule r → IsSurjective r → IsOntoMap r) → OneOfTwo }
{}

/// Law: a rule is surjective if and only if each configuration with periodic tails is the image of a configuration
/// with periodic tails.
pub fn surjective_is_onto_repeating()
    ensures { (r : LocalRule) → IsRule r → (IsSurjective r ↔ IsOntoTails r) }
{}

/// Law: a rule is surjective if and only if each ring, repeated l times for some l, is the image of a ring. For a
/// surjective rule some l from 1 to k^(m - 1) is enough. A rule is surjective if and only if each periodic
/// configuration is the image of a periodic configuration (Hedlund 1969).
pub fn surjective_on_rings()
    ensures exactly { (r : LocalRule) → IsRule r → (IsSurjective r ↔ IsOntoRings r) }
    ensures few { (r : LocalRule) (q : List ℕ) → IsRule r → IsSurjective r → IsRing r.states q
        → (l : ℕ) × (p : List ℕ) × (1 ≤ l) × (l ≤ node_count r) × IsRing r.states p × (length p ≡ l * length q) × (ring_image r p ≡ repeat l q) }
    ensures periodic { (r : LocalRule) → IsRule r → (IsSurjective r ↔ IsOntoPeriodic r) }
{}

/// Law: a rule is surjective if and only if each preimage of a periodic configuration is periodic (Hedlund 1969).
/// Suppose that the image has period p. If the rule is surjective, the preimage has period l p for some l from 1 to
/// k^(m - 1). If the rule is injective, the preimage has period p. Rule 90 reaches the bound k^(m - 1) = 4: the
/// configuration of ones has period 1, and it is the image of 0 0 1 1 repeated for ever, which has period 4.
pub fn periodic_preimages()
    ensures exactly { (r : LocalRule) → IsRule r → (IsSurjective r ↔ HasPeriodicPreimages r) }
    ensures period { (r : LocalRule) (x : Config) (p : ℕ) → IsRule r → IsSurjective r → IsConfig r.states x → HasPeriod p (image_of r x)
        → (l : ℕ) × (1 ≤ l) × (l ≤ node_count r) × HasPeriod (l * p) x }
    ensures injective { (r : LocalRule) (x : Config) (p : ℕ) → IsRule r → IsInjective r → IsConfig r.states x → HasPeriod p (image_of r x) → HasPeriod p x }
{}

/// Law: if a rule is right-closing, it is right-continuing. This means: if a configuration agrees far to the left with
/// the image of x, it is the image of a configuration that agrees far to the left with x. The same is true for the left
/// side, with configurations that agree far to the right.
pub fn closing_is_continuing()
    ensures right { (r : LocalRule) → IsRule r → IsRightClosing r → IsRightContinuingMap r }
    ensures left { (r : LocalRule) → IsRule r → IsLeftClosing r → IsLeftContinuingMap r }
{}

/// Law: a rule closes on both sides if and only if its map is open (Hedlund 1969). An open map is uniformly open: for
/// every n there is an l, which doesn't depend on x. Every configuration that agrees with the image of x from -l to l
/// is the image of a configuration that agrees with x from -n to n. Under an open map each configuration is an image.
pub fn open_is_open_map()
    ensures exactly { (r : LocalRule) → IsRule r → (IsOpen r ↔ IsOpenMap r) }
    ensures evenly { (r : LocalRule) → IsRule r → (IsOpen r ↔ IsEvenlyOpenMap r) }
    ensures onto { (r : LocalRule) → IsRule r → IsOpen r → IsOntoMap r }
{}

/// Law: a rule keeps the sums of rings if and only if it has a flux (Hattori and Takesue 1991). A flux gives a number
/// to each node. Take n consecutive cells of a configuration, and the n cells of its image for the windows that begin
/// at these cells. The weight of the cells of the image minus the weight of the cells of the configuration is a
/// difference: the number of the node at the first cell minus the number of the node after the last cell. Two more
/// properties are equivalent to keeping the sums of rings. The rule keeps the sums of finite configurations. Each
/// change of finitely many letters changes the weight of the image by the same amount as the weight of the letters.
pub fn conserving_everywhere()
    ensures has_flux { (weight : ℕ → ℕ) (r : LocalRule) → IsRule r → (IsConserving weight r ↔ ((phi : List ℤ) × IsFlux weight r phi)) }
    ensures flux { (weight : ℕ → ℕ) (r : LocalRule) (phi : List ℤ) (x : Config) (i : ℤ) (n : ℕ) → IsRule r → IsFlux weight r phi → IsConfig r.states x → (pos (weight_on weight (image_of r x) i n) -ℤ pos (weight_on weight x (i +ℤ r.offset) n)) ≡ (flow_under r phi x i -ℤ flow_under r phi x (i +ℤ pos n)) }
    ensures finite { (weight : ℕ → ℕ) (r : LocalRule) → IsRule r → (IsConserving weight r ↔ KeepsFiniteSums weight r) }
    ensures changes { (weight : ℕ → ℕ) (r : LocalRule) → IsRule r → (IsConserving weight r ↔ KeepsChanges weight r) }
{}

/// Law: a determined window has an inverse map. If you apply the rule and then the map, or the map and then the rule,
/// each configuration is mapped to itself. A rule undoes the given rule if it has the offset of the map, and if it gives
/// for each window the letter that the map gives for the window's first n letters.
pub fn inverse_everywhere()
    ensures back { (r : LocalRule) (n c : ℕ) (g : WindowMap) (x : Config) → IsRule r → IsDetermined r n c → IsInverseMap r n c g → IsConfig r.states x → mapped g (image_of r x) ≡ x }
    ensures forth { (r : LocalRule) (n c : ℕ) (g : WindowMap) (x : Config) → IsRule r → IsDetermined r n c → IsInverseMap r n c g → IsConfig r.states x → image_of r (mapped g x) ≡ x }
    ensures rule { (r s : LocalRule) (n c : ℕ) (g : WindowMap) → IsRule r → IsDetermined r n c → IsInverseMap r n c g → s.states ≡ r.states → s.offset ≡ g.offset → n ≤ s.width
        → ((w : List ℕ) → IsWord r.states w → length w ≡ s.width → local_map s w ≡ map_letter g (take n w)) → IsUndoneBy r s }
{}

/// Law: a rule is injective if and only if it maps the configurations one-to-one onto all configurations. An
/// injective rule is open and has an inverse map by a determined window. By `inverse_everywhere` this map is a
/// cellular automaton that undoes the rule (Amoroso and Patt 1972).
pub fn injective_is_bijective()
    ensures exactly { (r : LocalRule) → IsRule r → (IsInjective r ↔ IsBijectiveMap r) }
    ensures open_ { (r : LocalRule) → IsRule r → IsInjective r → IsOpen r }
    ensures inverse { (r : LocalRule) → IsRule r → IsInjective r → (n c : ℕ) × (g : WindowMap) × IsDetermined r n c × IsInverseMap r n c g }
{}

/// Law: a composition of two rules is surjective, injective, closing on a side or open if and only if both rules are.
/// It conserves the sums that both rules conserve. A rule is called a composition of two rules if its image of each
/// word is the second rule's image of the first rule's image. Its width and its offset must fit, too.
pub fn composed_everywhere()
    ensures surjective { (r s t : LocalRule) → IsRule r → IsRule s → IsRule t → IsOneAfter r s t → (IsSurjective t ↔ (IsSurjective r × IsSurjective s)) }
    ensures injective { (r s t : LocalRule) → IsRule r → IsRule s → IsRule t → IsOneAfter r s t → (IsInjective t ↔ (IsInjective r × IsInjective s)) }
    ensures right { (r s t : LocalRule) → IsRule r → IsRule s → IsRule t → IsOneAfter r s t → (IsRightClosing t ↔ (IsRightClosing r × IsRightClosing s)) }
    ensures left { (r s t : LocalRule) → IsRule r → IsRule s → IsRule t → IsOneAfter r s t → (IsLeftClosing t ↔ (IsLeftClosing r × IsLeftClosing s)) }
    ensures open_ { (r s t : LocalRule) → IsRule r → IsRule s → IsRule t → IsOneAfter r s t → (IsOpen t ↔ (IsOpen r × IsOpen s)) }
    ensures conserving { (weight : ℕ → ℕ) (r s t : LocalRule) → IsRule r → IsRule s → IsRule t → IsOneAfter r s t → IsConserving weight r → IsConserving weight s → IsConserving weight t }
    ensures rings { (r s t : LocalRule) (p : List ℕ) → IsOneAfter r s t → IsRing r.states p → ring_image t p ≡ ring_image s (ring_image r p) }
    ensures words { (r s t : LocalRule) → IsRule r → IsRule s → IsRule t → t.states ≡ r.states → s.states ≡ r.states → t.width ≡ r.width + s.width - 1 → t.offset ≡ r.offset +ℤ s.offset
        → ((x : List ℕ) → IsWord r.states x → t.width ≤ length x + 1 → image t x ≡ image s (image r x)) → IsOneAfter r s t }
{}

/// Law: if a rule s undoes a rule r, then r undoes s too, r is injective, and both conserve the same sums. It is enough to
/// look at words: s undoes r if in the image under s of the image under r of a word x, letter j is always the letter of x
/// at the place j minus both offsets.
pub fn undone_everywhere()
    ensures rings { (r s : LocalRule) (p : List ℕ) → IsUndoneBy r s → IsRing r.states p → ring_image s (ring_image r p) ≡ p }
    ensures turned { (r s : LocalRule) → IsRule r → IsUndoneBy r s → IsUndoneBy s r }
    ensures injective { (r s : LocalRule) → IsRule r → IsUndoneBy r s → IsInjective r }
    ensures conserving { (weight : ℕ → ℕ) (r s : LocalRule) → IsRule r → IsRule s → IsUndoneBy r s → (IsConserving weight r ↔ IsConserving weight s) }
    ensures words { (r s : LocalRule) → IsRule r → IsRule s → s.states ≡ r.states
        → ((n : ℕ) (x : List ℕ) → IsWord r.states x → length x ≡ n + (r.width - 1) + (s.width - 1) → (i j : ℕ) → j < n → pos i ≡ (pos j -ℤ r.offset -ℤ s.offset) → slice_index (image s (image r x)) j ≡ slice_index x i) → IsUndoneBy r s }
{}

/// Law: a rule is injective if and only if it maps the rings of each length one-to-one onto all rings of this length.
pub fn injective_on_rings()
    ensures { (r : LocalRule) → IsRule r → (IsInjective r ↔ IsBijectiveOnRings r) }
{}
