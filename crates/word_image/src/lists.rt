//! Lists in the evidence for a verdict: words, sets of nodes, ranks and fluxes. Contracts treat a value of these types
//! as the list of its items.
//!
//! A node is a word of m - 1 letters. The rank of two nodes is the greatest length of two walks with equal labels that
//! begin at them (forward rank) or end at them (backward rank). A flux is an integer for each node. It shows that a
//! rule keeps the sum of every ring.
ghost use Rattle.std.specs.Prelude.{◌≡◌};

use std::marker::Model;

/// A word, as the list of its letters.
#[derive(Debug, Drop)]
pub struct Word {
    letters: Vec<u8>,
}

impl Model for Word {
    ghost use Rattle.std.specs.Prelude.{ℕ, List};

    ghost Value = { List ℕ };

    ghost view = { λ w. w.letters.items };
}

impl Word {
    /// Makes a word of these letters.
    pub fn of(items: Vec<u8>) -> Self
        ensures { result ≡ items.items }
    {
        Word { letters: items }
    }

    /// Returns the letters from left to right.
    pub fn as_slice(&self) -> &[u8]
        ensures { result.now ≡ self.now }
    {
        &self.letters
    }
}

/// A list of sets of nodes. Bit u of a set says whether node u is in it.
#[derive(Debug, Drop)]
pub struct SetList {
    sets: Vec<u16>,
}

impl Model for SetList {
    ghost use Rattle.std.specs.Prelude.{ℕ, List};

    ghost Value = { List ℕ };

    ghost view = { λ l. l.sets.items };
}

impl SetList {
    /// Makes a list of these sets.
    pub fn of(items: Vec<u16>) -> Self
        ensures { result ≡ items.items }
    {
        SetList { sets: items }
    }

    /// Returns the sets in their order.
    pub fn as_slice(&self) -> &[u16]
        ensures { result.now ≡ self.now }
    {
        &self.sets
    }
}

/// The rank of each pair of nodes, in the order of the pairs' numbers. If there are N nodes, the pair of u and v has
/// the number u * N + v. None stands for an infinite rank.
#[derive(Debug, Drop)]
pub struct RankRow {
    ranks: Vec<Option<u16>>,
}

impl Model for RankRow {
    ghost use Rattle.std.specs.Prelude.{ℕ, List, Option};

    ghost Value = { List (Option ℕ) };

    ghost view = { λ r. r.ranks.items };
}

impl RankRow {
    /// Makes a row of these ranks.
    pub fn of(items: Vec<Option<u16>>) -> Self
        ensures { result ≡ items.items }
    {
        RankRow { ranks: items }
    }

    /// Returns the ranks, beginning with the rank of pair 0.
    pub fn as_slice(&self) -> &[Option<u16>]
        ensures { result.now ≡ self.now }
    {
        &self.ranks
    }
}

/// The number that a flux gives to each node, in the order of the nodes.
#[derive(Debug, Drop)]
pub struct FluxRow {
    flows: Vec<i32>,
}

impl Model for FluxRow {
    ghost use Rattle.std.specs.Prelude.{ℤ, List};

    ghost Value = { List ℤ };

    ghost view = { λ f. f.flows.items };
}

impl FluxRow {
    /// Makes a row of these numbers, one for each node.
    pub fn of(items: Vec<i32>) -> Self
        ensures { result ≡ items.items }
    {
        FluxRow { flows: items }
    }

    /// Returns the numbers of the nodes in the flux, beginning with node 0.
    pub fn as_slice(&self) -> &[i32]
        ensures { result.now ≡ self.now }
    {
        &self.flows
    }
}
