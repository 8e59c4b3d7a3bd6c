//! The function `first_gap`, which finds the first stretch of a configuration that is an orphan. A stretch consists of
//! zero or more left periods, the middle and zero or more right periods. It isn't an orphan if there is a walk along
//! it: a walk in the de Bruijn graph whose labels spell the stretch.

ghost use Rattle.std.specs.Prelude.{MatchOption};
ghost use Rattle.word_image.specs.LocalRules.{most_nodes};
ghost use Rattle.tail_preimage.specs.Parts.{HaveParts, PassesThrough, IsFirstGap};

use crate::periods::{least_closed, open};
use crate::relations::sources;
use crate::shapes::PartRelations;
use debruijn::Graph;
use word_image::MOST_NODES;

/// Returns the number of left periods and the number of right periods of the first stretch that is an orphan. The
/// number of left periods is the least for which no walk leads along these left periods, the middle and 16 right
/// periods. For this number of left periods, the number of right periods is the least for which no walk leads along the
/// stretch. Returns None if there is a walk along 16 left periods, the middle and 16 right periods.
pub fn first_gap(graph: &Graph, parts: &PartRelations) -> Option<(u8, u8)>
    requires { HaveParts graph.now parts.now }
    ensures { MatchOption result (PassesThrough graph.now parts.now most_nodes most_nodes) (λ (b, a). IsFirstGap graph.now parts.now b a) }
{
    let rears = sources(
        graph,
        &parts.middle,
        open(graph, &parts.right, MOST_NODES as u8),
    );
    let left = least_closed(graph, &parts.left, rears)?;
    let fronts = graph.union_of_rows(&parts.middle, open(graph, &parts.left, left));
    let right = least_closed(graph, &parts.right, fronts)?;
    Some((left, right))
}
