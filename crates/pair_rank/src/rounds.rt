//! Rounds that trim the set of all pairs of nodes until a round removes nothing.
//!
//! A round keeps a pair if two edges with equal labels lead from it to a pair of the set. Edges are followed forward on
//! the right side, and backward on the left. Round n, starting at 0, removes the pairs of rank n. The pairs that remain
//! at the end are called endless.

ghost use Rattle.std.specs.Prelude.{◌≡◌, ℕ, ◌*◌, ◌<◌, ◌≤◌, IsBitSet, Some, length};
ghost use Rattle.word_image.specs.LocalRules.{IsRule, most_nodes};
ghost use Rattle.pair_rank.specs.Sides.{AreEndless, AreRanks, HasFallen, rank_at};

use pair_graph::{PairSet, Pairs};
use word_image::{MOST_NODES, MOST_PAIRS, Side};

/// The greatest possible finite rank.
const MOST_RANK: u16 = 119;

/// The ranks of all pairs of nodes. The rank of the nodes u and v is at place 16 * u + v. It is None if the nodes are
/// endless.
pub type RankTable = [Option<u16>; MOST_PAIRS];

/// Returns the pairs that are endless on this side: forward on the right, backward on the left.
pub fn endless_pairs(pairs: &Pairs, side: Side) -> PairSet
    ensures endless { AreEndless side pairs.now result }
    ensures rule { IsRule pairs.now }
{
    let mut set = PairSet::all(pairs);
    for n in 0..=MOST_RANK {
        let after = set.trim(pairs, side);
        if after.same(&set) {
            return set;
        }
        set = after;
    }
    set
}

/// Returns the rank of each pair of nodes on this side, and the set of the endless pairs. Ranks are forward ranks on
/// the right side, and backward ranks on the left.
pub fn exact_ranks(pairs: &Pairs, side: Side) -> (RankTable, PairSet)
    ensures ranks { AreRanks side pairs.now result.0 }
    ensures endless { AreEndless side pairs.now result.1 }
    ensures rule { IsRule pairs.now }
{
    let nodes = pairs.rule().nodes();
    let mut ranks = [None; MOST_PAIRS];
    let mut set = PairSet::all(pairs);
    for n in 0..=MOST_RANK {
        let after = set.trim(pairs, side);
        if after.same(&set) {
            return (ranks, set);
        }
        note_fallen(&mut ranks, nodes, &set, &after, n);
        set = after;
    }
    (ranks, set)
}

/// Stores the rank n for each pair that round n removed. These are the pairs that are in `set` and not in `after`.
fn note_fallen(ranks: &mut RankTable, nodes: u8, set: &PairSet, after: &PairSet, n: u16)
    requires nodes { nodes ≤ most_nodes }
    requires before { length set.now ≡ nodes * nodes }
    requires after { length after.now ≡ nodes * nodes }
    ensures fallen { (u v : ℕ) → u < nodes → v < most_nodes → HasFallen nodes set.now after.now u v → rank_at ranks.new u v ≡ Some n }
    ensures kept { (u v : ℕ) → u < nodes → v < most_nodes → ¬ HasFallen nodes set.now after.now u v → rank_at ranks.new u v ≡ rank_at ranks.old u v }
{
    for u in 0..nodes {
        give_rank(ranks, u, set.row(u) & !after.row(u), n);
    }
}

/// Stores the rank n for each pair (u, v) whose second node v is in `set`.
fn give_rank(ranks: &mut RankTable, u: u8, set: u16, n: u16)
    requires { u < most_nodes }
    ensures given { (v : ℕ) → v < most_nodes → IsBitSet set v → rank_at ranks.new u v ≡ Some n }
    ensures kept { (s v : ℕ) → v < most_nodes → (s ≡ u → ¬ IsBitSet set v) → rank_at ranks.new s v ≡ rank_at ranks.old s v }
{
    let row = MOST_NODES * usize::from(u);
    for v in 0..MOST_NODES {
        if set >> v & 1 == 1 {
            ranks[row + v] = Some(n);
        }
    }
}
