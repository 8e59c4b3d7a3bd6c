//! The type `Link`: a pair of sets that the same word reaches under two rules. A word reaches the set of its last
//! nodes, which are the last m - 1 letters of its preimages.

/// The greatest number of links of two rules.
pub const MOST_LINKS: usize = 131_073;

/// A set of nodes of the first rule and a set of nodes of the second rule, which the same word reaches.
#[derive(Clone, Copy, Debug)]
pub struct Link {
    // The widest field is first, so a link takes 16 bytes.
    /// The place of the link from which this link was reached, or 0 for the first link.
    pub parent: usize,
    /// The set of nodes of the first rule.
    pub first: u16,
    /// The set of nodes of the second rule.
    pub second: u16,
    /// The letter on which this link was reached from its parent.
    pub letter: u8,
}
