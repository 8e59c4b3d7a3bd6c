//! The type `Refusal`: why bytes are refused.
//!
//! A certificate has claims and evidence. A claim is an upper bound of the rank of a pair of nodes. A step leads from a
//! pair to a pair along two edges with equal labels, or from a set of nodes to a set along all edges with the same
//! label. Two edges with equal labels that leave one node by different letters lead to the two nodes of a first pair on
//! the right. First pairs on the left are the mirror image.

use cert_values::ShapeFault;
use std::alloc::AllocError;
use word_image::Side;

/// Why two words aren't twins.
#[derive(Clone, Copy, Debug, PartialEq, Eq)]
pub enum TwinCause {
    /// The words have different lengths, or no letters.
    Length,
    /// The words are equal.
    Same,
    /// The rings of the words have different images.
    Image,
}

/// Why two configurations aren't a split of a side.
#[derive(Clone, Copy, Debug, PartialEq, Eq)]
pub enum SplitCause {
    /// The configurations are equal.
    Same,
    /// The configurations don't agree on the other side: on the left for a split of the right, on the right for a split
    /// of the left.
    Apart,
    /// The images of the configurations differ.
    Image,
}

/// Why bytes are refused: the first fault of the text, or the first condition that the certificate doesn't meet. The
/// numbers say at which place it doesn't meet the condition.
#[derive(Clone, Copy, Debug, PartialEq, Eq)]
pub enum Refusal {
    /// The bytes aren't the text of a certificate, because of this first fault.
    Format(ShapeFault),
    /// This pair has a claim on this side, but a step leads from it to a pair without a lesser claim on this side. It
    /// is the first such pair.
    Rank(Side, u16),
    /// The set of all nodes isn't a listed set.
    NoFull,
    /// The listed set at this place is empty. It is the first such place.
    EmptySet(usize),
    /// The step from the listed set at this place, on this letter, leads to a set that isn't listed. In versions 2 and
    /// 3, it leads to a set that contains no listed set. It is the first such place, with its first such letter.
    NotClosed(usize, u8),
    /// This first pair on the right isn't a listed pair. It is the least such pair.
    NoFirst(u16),
    /// The listed pair at this place has two equal nodes. It is the first such place.
    Diagonal(usize),
    /// From the listed pair at this place, a step on these two letters leads to a pair that isn't listed. It is the
    /// first such place, with its first such letters.
    Leaves(usize, u8, u8),
    /// The steps on the letters of the orphan lead from the set of all nodes to a set that isn't empty.
    Orphan,
    /// For this pair the claims don't show that the window determines its letter. It is the first such pair.
    Window(u16),
    /// The words aren't twins. The cause is the first one that applies.
    Twins(TwinCause),
    /// This first pair on this side has no claim that is less than the look-ahead minus 1. It is the least such pair.
    Ahead(Side, u16),
    /// The configurations aren't a split of this side. The cause is the first one that applies.
    Split(Side, SplitCause),
    /// The flux doesn't balance at the window with this value. It is the least such window.
    Flux(u16),
    /// The ring has no letter, or its image has the same sum of weights.
    Ring,
    /// There is not enough memory.
    Memory(AllocError),
}
