//! Theorems about the degree of a surjective rule.
//!
//! The functions of this file do nothing. The contract of each function states a law.
ghost use Rattle.std.specs.Prelude.{◌≡◌, ◌↔◌, ℕ, ◌-◌, ◌*◌, ◌^◌, List, ◌++◌, length, reverse, ℤ};
ghost use Rattle.word_image.specs.LocalRules.{LocalRule, IsRule, IsWord, node_count, mirrored};
ghost use Rattle.word_image.specs.Words.{IsSurjective};
ghost use Rattle.rule_algebra.specs.Algebra.{IsComposed, IsRecolouring, IsRecoloured};
ghost use Rattle.tail_config.specs.Tails.{IsInjective, IsOpen};
ghost use Rattle.tail_config.specs.Configs.{Config, IsConfig};
ghost use Rattle.config_laws.specs.Repeating.{HasTails};
ghost use Rattle.config_laws.specs.Periodic.{IsPeriodic};
ghost use Rattle.preimage_laws.specs.PreimageCounts.{IsToOne, ArePreimages};
ghost use Rattle.welch_index.specs.Fewest.{IsFewestLast, IsFewestFirst};
ghost use Rattle.welch_index.specs.Degrees.{IsDegree, HasCutNodes, HasSeparated, IsMultiplier, AreDegreeAndMultipliers, IsCopy};

/// Law (Hedlund 1969): a surjective rule has a degree d. Let f be the fewest last nodes that a word has, and let b be the
/// fewest first nodes. Then f b = d k^(m - 1). Let u be the least word with f last nodes, and v the word with b first
/// nodes that is least if words are read from right to left. Then d nodes are at the cut between u and z v, for each word z
/// of m - 1 letters. A rule has at most one degree.
pub fn degree_is_product()
    ensures product { (r : LocalRule) (f b nodes others : ℕ) (u v : List ℕ) → IsRule r → IsSurjective r → IsFewestLast r f nodes u → IsFewestFirst r b others v
        → (d : ℕ) × IsDegree r d × (node_count r * d ≡ f * b) × ((z : List ℕ) → IsWord r.states z → length z ≡ r.width - 1 → HasCutNodes r u (z ++ v) d) }
    ensures one { (r : LocalRule) (c d : ℕ) → IsDegree r c → IsDegree r d → c ≡ d }
{}

/// Law: if a rule is open, each configuration has n preimages if and only if the degree of the rule is n. If each
/// configuration has n preimages, n divides k^(m - 1). A rule is injective if and only if it is open and its degree is 1.
/// The fewest last nodes of an injective rule times its fewest first nodes are k^(m - 1).
pub fn degree_counts_preimages()
    ensures number { (r : LocalRule) (n : ℕ) → IsRule r → IsOpen r → (IsToOne r n ↔ IsDegree r n) }
    ensures divides { (r : LocalRule) (n : ℕ) → IsRule r → IsToOne r n → (c : ℕ) × (n * c ≡ node_count r) }
    ensures one { (r : LocalRule) → IsRule r → (IsInjective r ↔ (IsOpen r × IsDegree r 1)) }
    ensures product { (r : LocalRule) (f b nodes others : ℕ) (u v : List ℕ) → IsRule r → IsInjective r → IsFewestLast r f nodes u → IsFewestFirst r b others v
        → f * b ≡ node_count r }
{}

/// Law: if a rule has the degree d, each configuration with periodic tails has at least d preimages. At any place there
/// are d of them whose m - 1 letters there are all different. If the rule is surjective, some periodic configuration has
/// exactly d preimages.
pub fn degree_is_least_number()
    ensures least { (r : LocalRule) (d : ℕ) (y : Config) (i : ℤ) → IsRule r → IsDegree r d → IsConfig r.states y → HasTails y → HasSeparated r y i d }
    ensures attained { (r : LocalRule) (d : ℕ) → IsRule r → IsSurjective r → IsDegree r d
        → (y : Config) × (xs : ℕ → Config) × IsConfig r.states y × IsPeriodic y × ArePreimages r y d xs }
{}

/// Law (Hedlund 1969): the right multiplier is the greatest number of ends of walks that begin at one node and spell one
/// word. The left multiplier is that of the mirrored rule. A surjective rule has both, and their product with the degree
/// is k^(m - 1). The left multiplier times the fewest last nodes is k^(m - 1), and so is the right multiplier times the
/// fewest first nodes.
pub fn multipliers_and_degree()
    ensures { (r : LocalRule) (f b nodes others : ℕ) (u v : List ℕ) → IsRule r → IsSurjective r → IsFewestLast r f nodes u → IsFewestFirst r b others v
        → (l : ℕ) × (d : ℕ) × (n : ℕ) × IsMultiplier (mirrored r) l × IsDegree r d × IsMultiplier r n
        × (l * f ≡ node_count r) × (n * b ≡ node_count r) × (l * d * n ≡ node_count r) }
{}

/// Law: the degree doesn't depend on the offset. The fewest last nodes with their least word, the fewest first nodes with
/// theirs, and the multipliers don't depend on it either. So a shifted rule has the same numbers.
pub fn offset_keeps_degree()
    ensures degree { (r : LocalRule) (d : ℕ) (o : ℤ) → (IsDegree r d ↔ IsDegree (record { states = r.states; width = r.width; offset = o; table = r.table }) d) }
    ensures last { (r : LocalRule) (n nodes : ℕ) (w : List ℕ) (o : ℤ) → (IsFewestLast r n nodes w ↔ IsFewestLast (record { states = r.states; width = r.width; offset = o; table = r.table }) n nodes w) }
    ensures first { (r : LocalRule) (n nodes : ℕ) (w : List ℕ) (o : ℤ) → (IsFewestFirst r n nodes w ↔ IsFewestFirst (record { states = r.states; width = r.width; offset = o; table = r.table }) n nodes w) }
    ensures multipliers { (r : LocalRule) (d n l : ℕ) (o : ℤ) → (AreDegreeAndMultipliers r d n l ↔ AreDegreeAndMultipliers (record { states = r.states; width = r.width; offset = o; table = r.table }) d n l) }
{}

/// Law: a rule of k states and width m that gives letter j of each window, counted from 0, is surjective. Its fewest last
/// nodes are k^(m - 1 - j), its fewest first nodes are k^j, and its degree is 1. If the composition of f and s is such a
/// copy, the fewest nodes of f times those of s are these powers. So the flow of an inverse rule is 1 divided by the flow of
/// the rule. If s is such a copy, the fewest nodes of the composition are those of f times the powers of s. A widened rule
/// is such a composition.
pub fn copies_have_powers()
    ensures surjective { (r : LocalRule) (j : ℕ) → IsRule r → IsCopy r j → IsSurjective r }
    ensures fewest { (r : LocalRule) (j f b nodes others : ℕ) (u v : List ℕ) → IsRule r → IsCopy r j → IsFewestLast r f nodes u → IsFewestFirst r b others v
        → (f ≡ r.states ^ (r.width - 1 - j)) × (b ≡ r.states ^ j) × IsDegree r 1 }
    ensures undone { (f s g : LocalRule) (e a b c d x y i j k l m n : ℕ) (u v w z p q : List ℕ) → IsRule f → IsRule s → IsRule g → s.states ≡ f.states → IsComposed f s g → IsCopy g e
        → IsSurjective f → IsSurjective s → IsFewestLast f a i u → IsFewestFirst f b j v → IsFewestLast s c k w → IsFewestFirst s d l z → IsFewestLast g x m p → IsFewestFirst g y n q
        → (a * c ≡ g.states ^ (g.width - 1 - e)) × (b * d ≡ g.states ^ e) }
    ensures widened { (f s g : LocalRule) (e a b c d x y i j k l m n : ℕ) (u v w z p q : List ℕ) → IsRule f → IsRule s → IsRule g → s.states ≡ f.states → IsComposed f s g → IsCopy s e
        → IsSurjective f → IsFewestLast f a i u → IsFewestFirst f b j v → IsFewestLast s c k w → IsFewestFirst s d l z → IsFewestLast g x m p → IsFewestFirst g y n q
        → (x ≡ a * s.states ^ (s.width - 1 - e)) × (y ≡ b * s.states ^ e) }
{}

/// Law: a rule with renamed letters has the same degree. The fewest last nodes that a word has are as many as under the
/// rule, and so are the fewest first nodes.
pub fn renaming_keeps_degree()
    ensures degree { (r g : LocalRule) (colours : List ℕ) → IsRule r → IsRule g → IsRecolouring r.states colours → IsRecoloured colours r g → (d : ℕ) → (IsDegree r d ↔ IsDegree g d) }
    ensures last { (r g : LocalRule) (colours : List ℕ) → IsRule r → IsRule g → IsRecolouring r.states colours → IsRecoloured colours r g
        → (a b i j : ℕ) (u v : List ℕ) → IsFewestLast r a i u → IsFewestLast g b j v → a ≡ b }
    ensures first { (r g : LocalRule) (colours : List ℕ) → IsRule r → IsRule g → IsRecolouring r.states colours → IsRecoloured colours r g
        → (a b i j : ℕ) (u v : List ℕ) → IsFewestFirst r a i u → IsFewestFirst g b j v → a ≡ b }
{}

/// Law: the mirrored rule has the same degree. The fewest first nodes that a word has under a rule are the fewest last
/// nodes that a word has under the mirrored rule, and the words are mirrored.
pub fn mirror_exchanges_sides()
    ensures degree { (r : LocalRule) (d : ℕ) → IsRule r → (IsDegree r d ↔ IsDegree (mirrored r) d) }
    ensures fewest { (r : LocalRule) (n nodes : ℕ) (w : List ℕ) → IsRule r → IsFewestFirst r n nodes w → (others : ℕ) × IsFewestLast (mirrored r) n others (reverse w) }
{}

/// Law (Hedlund 1969): the degree of a composition of two surjective rules is the product of their degrees, and each
/// multiplier is the product of their multipliers. The fewest last nodes multiply too, and so do the fewest first nodes.
pub fn composition_multiplies()
    ensures numbers { (f s g : LocalRule) (d n l e m k c p q : ℕ) → IsRule f → IsRule s → IsRule g → s.states ≡ f.states → IsComposed f s g → IsSurjective f → IsSurjective s
        → AreDegreeAndMultipliers f d n l → AreDegreeAndMultipliers s e m k → AreDegreeAndMultipliers g c p q → (c ≡ d * e) × (p ≡ n * m) × (q ≡ l * k) }
    ensures fewest { (f s g : LocalRule) (a b c d x y i j k l m n : ℕ) (u v w z p q : List ℕ) → IsRule f → IsRule s → IsRule g → s.states ≡ f.states → IsComposed f s g
        → IsSurjective f → IsSurjective s → IsFewestLast f a i u → IsFewestFirst f b j v → IsFewestLast s c k w → IsFewestFirst s d l z → IsFewestLast g x m p → IsFewestFirst g y n q
        → (x ≡ a * c) × (y ≡ b * d) }
{}
