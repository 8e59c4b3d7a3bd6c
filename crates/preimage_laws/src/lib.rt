//! The number of preimages of a configuration: a rule is open if and only if all configurations have the same number
//! of preimages (Hedlund 1969).
//!
//! A rule is open if it closes on both sides: no two different configurations with the same image agree far to the
//! left, or far to the right. A preimage of a configuration is a configuration whose image it is, and the node of a
//! preimage at a place consists of its m - 1 letters there.
//!
//! Under rule 90, the sum of the two neighbours, each configuration has four preimages: two adjacent letters and the
//! image determine all other letters, and there are four pairs of letters. Under rule 30 the configuration of zeros
//! has two preimages, zeros and ones. Rule 30 has a right split, so it isn't open, and some other configuration has
//! another number of preimages.
//!
//! If a rule is open, all configurations have the same number of preimages. First suppose that two preimages of a
//! configuration have the same node at a place. The left part of the first preimage and the right part of the second,
//! joined there, form a third preimage. It agrees with the first preimage far to the left, and with the second far to
//! the right. The rule closes on both sides, so all three preimages are equal. Hence different preimages of a
//! configuration have different nodes at each place. A long enough part of the configuration around the place
//! determines these nodes, and so the number of preimages. Now take two configurations. The left part of the first and
//! the right part of the second form a third configuration, which has the same number of preimages as each of the two.
//!
//! Conversely, suppose that all periodic configurations have n preimages. Then the rule is surjective, so the preimages of a
//! periodic configuration are periodic. Suppose that two preimages of a periodic configuration have the same node at a
//! place. Joined there, they form a third preimage, which is periodic, too. It agrees with the first preimage far to
//! the left, and with the second far to the right, so all three are equal.
//!
//! Now suppose that the rule has a split: two different preimages of a configuration with periodic tails that have the
//! same node at a place. Repeat a long part of this configuration around the place for ever. The result is periodic. At
//! a place far to the left it agrees with the configuration that repeats the left tail. Both have n preimages with n
//! different nodes there, and enough letters agree that these are the same nodes. So each of the two preimages of the
//! split has there the node of a preimage of the periodic result, and also at a place far to the right. Joined at these
//! places, each makes a preimage of the periodic result with the same letters between. These two preimages have the same
//! node at a place, so they are equal, and there is no split. This argument needs only that all periodic configurations
//! have n preimages.
//!
//! No law uses the law of the excluded middle.
//!
//! The functions of this crate do nothing. The contract of each function states a law.
#![tactic(auto)]

ghost use Rattle.std.specs.Prelude.{ℕ, ◌≤◌, ◌↔◌};
ghost use Rattle.word_image.specs.LocalRules.{LocalRule, IsRule, node_count};
ghost use Rattle.tail_config.specs.Tails.{IsInjective, IsOpen};
ghost use Rattle.preimage_laws.specs.PreimageCounts.{IsToOne, IsConstantToOne, IsToOneOnPeriodic, HasSeparatedPreimages};

/// Law: a rule is open if and only if all configurations have the same number of preimages (Hedlund 1969). This
/// number is from 1 to k^(m - 1). All configurations have exactly one preimage if and only if the rule is injective.
/// A rule is open if and only if all periodic configurations have the same number of preimages, and if and only if
/// different preimages of a configuration differ within any m - 1 adjacent letters.
pub fn open_is_constant_to_one()
    ensures exactly { (r : LocalRule) → IsRule r → (IsOpen r ↔ IsConstantToOne r) }
    ensures number { (r : LocalRule) (n : ℕ) → IsRule r → IsToOne r n → (1 ≤ n) × (n ≤ node_count r) }
    ensures one { (r : LocalRule) → IsRule r → (IsInjective r ↔ IsToOne r 1) }
    ensures periodic { (r : LocalRule) → IsRule r → (IsOpen r ↔ ((n : ℕ) × IsToOneOnPeriodic r n)) }
    ensures separated { (r : LocalRule) → IsRule r → (IsOpen r ↔ HasSeparatedPreimages r) }
{}
