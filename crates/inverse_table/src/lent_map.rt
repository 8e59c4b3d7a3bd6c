//! The type `LentMap`: an inverse map whose letters stand in a list that it doesn't own.
ghost use Rattle.std.specs.Prelude.{◌≡◌, ◌<◌, ◌^◌, ◌↔◌, slice_index, IfOk, IsOk};
ghost use Rattle.std.specs.Result.{result_err};
ghost use Rattle.word_image.specs.LocalRules.{IsRule};
ghost use Rattle.inverse_table.specs.InverseMaps.{map_rule};
ghost use Rattle.inverse_table.specs.MapLimits.{IsWindowMap, rule_limit_fault};

use std::marker::Model;
use word_image::{Rule, RuleFault, check_shape};

/// An inverse map as [`InverseMap`](crate::InverseMap), with its letters in a list that it doesn't own.
#[derive(Debug, Drop)]
pub struct LentMap<'r> {
    // The number k of letters.
    k: u8,
    // The number n of letters of the image that the map reads.
    n: u16,
    // The place of the first of these letters, if the map computes cell 0.
    offset: i32,
    // The letter for each of the k^n words of n letters.
    letters: &'r [u8],
}

impl<'r> Model for LentMap<'r> {
    ghost use Rattle.tail_config.specs.InverseMaps.{WindowMap};
    ghost use Rattle.inverse_table.specs.MapLimits.{IsWindowMap};

    ghost Value = { WindowMap };

    ghost view = { λ g. record { states = g.k; width = g.n; offset = g.offset; table = g.letters.now } };

    ghost invariant = { λ g. IsWindowMap (record { states = g.k; width = g.n; offset = g.offset; table = g.letters.now }) };
}

impl<'r> LentMap<'r> {
    /// Makes the map for k letters that reads n letters, with this offset and these letters.
    pub(crate) fn of(k: u8, n: u16, offset: i32, letters: &'r [u8]) -> Self
        requires { IsWindowMap (record { states = k; width = n; offset = offset; table = letters.now }) }
        ensures { result ≡ record { states = k; width = n; offset = offset; table = letters.now } }
    {
        LentMap {
            k,
            n,
            offset,
            letters,
        }
    }

    /// Returns the number of letters k, from 2 to 16.
    pub fn k(&self) -> u8
        ensures states { result ≡ self.now.states }
        ensures map { IsWindowMap self.now }
    {
        self.k
    }

    /// Returns how many letters of the image the map reads, from 1 to 16.
    pub fn n(&self) -> u16
        ensures width { result ≡ self.now.width }
        ensures map { IsWindowMap self.now }
    {
        self.n
    }

    /// Returns the offset. The letter of cell i is computed from the cells of the image that begin at place i +
    /// offset.
    pub fn offset(&self) -> i32
        ensures offset { result ≡ self.now.offset }
        ensures map { IsWindowMap self.now }
    {
        self.offset
    }

    /// Returns the letter for each of the k^n words of n letters, in the order of their values.
    pub fn table(&self) -> &'r [u8]
        ensures table { result.now ≡ self.now.table }
        ensures map { IsWindowMap self.now }
    {
        self.letters
    }

    /// Makes a rule of width n from a map that reads n letters, as [`as_rule`](crate::as_rule) does.
    pub fn as_rule(&self) -> Result<Rule, RuleFault>
        ensures rule { IfOk result (λ r. r ≡ map_rule self.now) }
        ensures fault { result_err result ≡ rule_limit_fault (map_rule self.now) }
        ensures accepted { IsOk result ↔ IsRule (map_rule self.now) }
    {
        let m = self.n().max(2) as u8;
        let o = self.offset() as i8;
        check_shape(self.k(), m, o)?;
        Ok(Rule::from_fn(self.k(), m, o, |window| self.letter(window)))
    }

    /// Returns the letter that the rule made by `as_rule` gives for a window. If the map reads one letter, the second
    /// cell is ignored.
    fn letter(&self, window: u16) -> u8
        requires { window < self.now.states ^ (map_rule self.now).width }
        ensures { result ≡ slice_index (map_rule self.now).table window }
    {
        if self.n() == 1 {
            return self.table()[usize::from(window / u16::from(self.k()))];
        }
        self.table()[usize::from(window)]
    }
}
