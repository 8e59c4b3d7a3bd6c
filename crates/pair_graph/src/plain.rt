//! Slow trims, which loop over the steps of pairs. They are here to be compared with the fast trims. A trim of a set of
//! pairs keeps the pairs from which some step leads to a pair of the set.

ghost use Rattle.std.specs.Prelude.{◌≡◌, ◌<◌, ◌↔◌, length, IsTrue};
ghost use Rattle.word_image.specs.Graphs.{pair_count};
ghost use Rattle.pair_graph.specs.PairSets.{holds, IsTrimmedSet, LeadsInto, LeadsIntoBy};

use crate::pair_set::PairSet;
use crate::pairs::Pairs;
use word_image::Side;

/// Returns the same set as `trim_forward`, by loops over the steps of pairs.
pub fn plain_forward(set: &PairSet, pairs: &Pairs) -> PairSet
    requires { length set.now ≡ pair_count pairs.now }
    ensures { IsTrimmedSet Side.Right pairs.now set.now result }
{
    plain(set, pairs, Side::Right)
}

/// Returns the same set as `trim_backward`, by loops over the steps of pairs.
pub fn plain_backward(set: &PairSet, pairs: &Pairs) -> PairSet
    requires { length set.now ≡ pair_count pairs.now }
    ensures { IsTrimmedSet Side.Left pairs.now set.now result }
{
    plain(set, pairs, Side::Left)
}

fn plain(set: &PairSet, pairs: &Pairs, side: Side) -> PairSet
    requires { length set.now ≡ pair_count pairs.now }
    ensures { IsTrimmedSet side pairs.now set.now result }
{
    let mut kept = *set;
    for p in 0..pairs.count() {
        if !leads_into(set, pairs, side, p) {
            kept.remove(p);
        }
    }
    kept
}

/// Returns whether some step leads from pair `p` to a pair of the set. Steps go forward on the right side, and backward
/// on the left.
fn leads_into(set: &PairSet, pairs: &Pairs, side: Side, p: u16) -> bool
    requires count { length set.now ≡ pair_count pairs.now }
    requires pair { p < pair_count pairs.now }
    ensures { IsTrue result ↔ LeadsInto side pairs.now set.now p }
{
    for a in 0..pairs.rule().k() {
        if leads_into_by(set, pairs, side, p, a) {
            return true;
        }
    }
    false
}

/// Returns whether some step whose first letter is `a` leads from pair `p` to a pair of the set. Steps go forward on
/// the right side, and backward on the left.
fn leads_into_by(set: &PairSet, pairs: &Pairs, side: Side, p: u16, a: u8) -> bool
    requires count { length set.now ≡ pair_count pairs.now }
    requires pair { p < pair_count pairs.now }
    requires letter { a < pairs.now.states }
    ensures { IsTrue result ↔ LeadsIntoBy side pairs.now set.now p a }
{
    for b in 0..pairs.rule().k() {
        if let Some(q) = pairs.step(side, p, a, b) {
            if set.holds(q) {
                return true;
            }
        }
    }
    false
}
