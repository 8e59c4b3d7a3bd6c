//! The parts of a certificate: the evidence for the answer to each question about a rule of width m.
use tail_config::Tail;
use word_image::{FluxRow, SetList, Word};

/// The evidence that a rule is surjective, or that it isn't.
#[derive(Debug, Drop)]
pub enum SurjectivePart {
    /// The rule is surjective, which these sets of nodes prove. Bit u of a set stands for node u.
    Sets(SetList),
    /// The rule is surjective, which these pairs of nodes prove. If there are N nodes, the pair (u, v) has the number u
    /// N + v.
    Pairs(SetList),
    /// The rule isn't surjective, since this word has no preimage.
    Orphan(Word),
}

/// The evidence that a rule is injective, or that it isn't.
#[derive(Debug, Drop)]
pub enum InjectivePart {
    /// The rule is injective, since n letters of an image determine the letter at place c of each preimage. A preimage
    /// of n letters has n + m - 1 letters, and places start at 0.
    Window { n: u16, c: u16 },
    /// The rule isn't injective, since the rings of these two words have the same image.
    Twins { x: Word, y: Word },
}

/// The evidence that a rule closes on a side, or that it doesn't.
#[derive(Debug, Drop)]
pub enum SidePart {
    /// The rule closes on this side, with this look-ahead.
    Ahead(u16),
    /// The rule doesn't close on this side, since these two configurations share an image and agree on the other
    /// side.
    Split(Tail, Tail),
}

/// The evidence that a rule conserves the sum of weights, or that it doesn't.
#[derive(Debug, Drop)]
pub enum SumPart {
    /// The rule conserves the sum, which this flux proves.
    Flux(FluxRow),
    /// The rule doesn't conserve the sum, since this ring and its image have different sums.
    Ring(Word),
}
