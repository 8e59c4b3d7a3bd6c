//! The type `InverseMap`, and the function `as_rule`, which makes a rule of an inverse map.
ghost use Rattle.std.specs.Prelude.{◌≡◌, ◌↔◌, IfOk, IsOk};
ghost use Rattle.std.specs.Result.{result_err};
ghost use Rattle.word_image.specs.LocalRules.{IsRule};
ghost use Rattle.inverse_table.specs.InverseMaps.{map_rule};
ghost use Rattle.inverse_table.specs.MapLimits.{IsWindowMap, rule_limit_fault};

use crate::lent_map::LentMap;
use std::alloc::{AllocError, Global};
use std::marker::Model;
use word_image::{Rule, RuleFault};

/// A map that computes a letter of a word from n letters of its image. It has a letter for each word of n letters, in
/// the order of the values of these words.
#[derive(Debug, Drop)]
pub struct InverseMap {
    // The number k of letters.
    k: u8,
    // The number n of letters of the image that the map reads.
    n: u16,
    // The place of the first of these letters, if the map computes cell 0.
    offset: i32,
    // The letter for each of the k^n words of n letters.
    letters: Vec<u8>,
}

impl Model for InverseMap {
    ghost use Rattle.tail_config.specs.InverseMaps.{WindowMap};
    ghost use Rattle.inverse_table.specs.MapLimits.{IsWindowMap};

    ghost Value = { WindowMap };

    ghost view = { λ g. record { states = g.k; width = g.n; offset = g.offset; table = g.letters.items } };

    ghost invariant = { λ g. IsWindowMap (record { states = g.k; width = g.n; offset = g.offset; table = g.letters.items }) };
}

impl InverseMap {
    /// Copies a map and its letters. The only error is lack of memory.
    pub fn of(alloc: Global, map: &LentMap) -> Result<InverseMap, AllocError>
        ensures { IfOk result (λ copy. copy ≡ map.now) }
    {
        Ok(InverseMap {
            k: map.k(),
            n: map.n(),
            offset: map.offset(),
            letters: map.table().to_vec(alloc)?,
        })
    }

    /// Lends the map with its letters.
    pub fn as_lent(&self) -> LentMap<'_>
        ensures { result ≡ self.now }
    {
        LentMap::of(self.k, self.n, self.offset, &self.letters)
    }

    /// Returns the number of letters k, from 2 to 16.
    pub fn k(&self) -> u8
        ensures states { result ≡ self.now.states }
        ensures map { IsWindowMap self.now }
    {
        self.k
    }

    /// Returns how many letters of the image the map reads, from 1 to 16.
    pub fn n(&self) -> u16
        ensures width { result ≡ self.now.width }
        ensures map { IsWindowMap self.now }
    {
        self.n
    }

    /// Returns the offset. The letter of cell i is computed from the cells of the image that begin at place i +
    /// offset.
    pub fn offset(&self) -> i32
        ensures offset { result ≡ self.now.offset }
        ensures map { IsWindowMap self.now }
    {
        self.offset
    }

    /// Returns the letter for each of the k^n words of n letters, in the order of their values.
    pub fn table(&self) -> &[u8]
        ensures table { result.now ≡ self.now.table }
        ensures map { IsWindowMap self.now }
    {
        &self.letters
    }
}

/// Makes a rule of width n from an inverse map that reads n letters. The table of the rule has the letters of the map.
/// A map with n = 1 becomes a rule of width 2 that ignores its second cell.
///
/// If the rule would break limits of rules, returns the first of `Width`, `Nodes` and `Offset` that applies. It needs
/// no memory.
pub fn as_rule(map: &InverseMap) -> Result<Rule, RuleFault>
    ensures rule { IfOk result (λ r. r ≡ map_rule map.now) }
    ensures fault { result_err result ≡ rule_limit_fault (map_rule map.now) }
    ensures accepted { IsOk result ↔ IsRule (map_rule map.now) }
{
    map.as_lent().as_rule()
}
