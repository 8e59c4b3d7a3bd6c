//! Lists the ranks of all pairs of nodes. The rank of two nodes is the greatest number of steps of two walks with equal
//! labels that begin at the nodes (forward) or end at them (backward).
ghost use Rattle.std.specs.Prelude.{◌≡◌, ◌<◌, ℕ, length, get_or, None, IfOk};
ghost use Rattle.word_image.specs.Graphs.{pair_count};
ghost use Rattle.pair_rank.specs.Sides.{IsRankOf};

use crate::ranks::Ranks;
use std::alloc::{AllocError, Global};
use word_image::{RankRow, Side};

impl Ranks {
    /// Returns the ranks of all pairs: forward ranks on the right side, and backward ranks on the left. If there are N
    /// nodes, the rank of u and v is at place u * N + v. None stands for an infinite rank. The only error is lack of
    /// memory.
    pub fn row(&self, alloc: Global, side: Side) -> Result<RankRow, AllocError>
        ensures each_pair { IfOk result (λ row. length row ≡ pair_count self.now) }
        ensures ranks { IfOk result (λ row. (p : ℕ) → p < pair_count self.now → IsRankOf side self.now p (get_or row p None)) }
    {
        let mut row = Vec::new(alloc);
        for pair in 0..self.rule().pairs() {
            row.push(rank_of(self, side, pair))?;
        }
        Ok(RankRow::of(row))
    }
}

/// Returns the rank of the pair with this number: the forward rank on the right side, and the backward rank on the
/// left.
fn rank_of(ranks: &Ranks, side: Side, pair: u16) -> Option<u16>
    requires { pair < pair_count ranks.now }
    ensures { IsRankOf side ranks.now pair result }
{
    let (first, second) = ranks.rule().nodes_of(pair);
    ranks.rank(side, first, second)
}
