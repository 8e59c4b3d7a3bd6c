//! The type `Condition`: the conditions that a certificate must meet.
//!
//! A certificate has claims and evidence. A claim is an upper bound of the rank of a pair of nodes. A step leads from a
//! pair to a pair along two edges with equal labels, or from a set of nodes to a set along all edges with the same
//! label. Two edges with equal labels that leave one node by different letters lead to the two nodes of a first pair on
//! the right. First pairs on the left are the mirror image.

use word_image::Side;

/// A condition on a certificate. Most conditions only concern evidence of one kind. A certificate without this
/// evidence meets them.
#[derive(Clone, Copy, Debug, PartialEq, Eq)]
pub enum Condition {
    /// If a pair has a claim on this side, each pair that a step reaches from it has a lesser claim on this side. Steps
    /// go forward on the right side and backward on the left side.
    SideClaims(Side),
    /// The set of all nodes is a listed set.
    FullListed,
    /// No listed set is empty.
    NoneEmpty,
    /// In version 1, each step from a listed set leads to a listed set. In versions 2 and 3, it leads to a set that
    /// contains a listed set.
    Closed,
    /// Each first pair on the right is a listed pair.
    FirstsListed,
    /// No listed pair has two equal nodes.
    OffDiagonal,
    /// Each pair to which a step leads from a listed pair is a listed pair.
    PairsClosed,
    /// The steps on the letters of the orphan lead from the set of all nodes to the empty set.
    OrphanRead,
    /// The claims show that the window is determined: n letters of an image determine the letter at place c of each
    /// preimage.
    WindowClaims,
    /// The twins have the same length of at least 1, are different, and have rings with the same image.
    TwinsAlike,
    /// Each first pair on this side has a claim on this side that is less than the look-ahead minus 1.
    SideAhead(Side),
    /// The two configurations of the split differ, agree on the other side and share an image.
    SideSplit(Side),
    /// The flux balances at each window: the weight of the window's image minus the weight of its first letter is the
    /// flux at its first node minus the flux at its last node.
    FluxFlows,
    /// The ring has at least one letter, and its image has another sum of weights.
    RingLossy,
}
