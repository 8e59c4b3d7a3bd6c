//! A rule, and the letter that the rule gives for a window.
//!
//! A rule has k states, which are the letters 0 to k - 1, a width m and an offset o. A window is a word of m letters,
//! and the window of cell i begins at cell i + o. The value of a window is the base-k number whose most significant
//! digit is the leftmost letter. The table has one letter for each window. A node is a word of m - 1 letters.
ghost use Rattle.std.specs.Prelude.{◌≡◌, ℕ, ◌-◌, ◌^◌, ◌<◌, ◌≤◌, ◌↔◌, List, length, reverse, ℤ, nat_le, position, slice_index, IfOk, IfSome, IsOk, IsTrue};
ghost use Rattle.std.specs.Cmp.Rules.{comparing};
ghost use Rattle.std.proofs.Common.{rules};
ghost use Rattle.std.specs.Result.{result_err};
ghost use Rattle.word_image.specs.LocalRules.{IsShape, IsWord, value, word_of, most_windows};
ghost use Rattle.word_image.specs.SameRules.{same_rule};
ghost use Rattle.word_image.specs.RuleFaults.{shape_fault, table_fault};
ghost use Rattle.word_image.specs.Storage.{padded};

use crate::values::{letter_of, value_by};
use std::marker::Model;

/// The greatest number of states that an accepted rule may have.
pub const MOST_STATES: usize = 16;

/// The greatest width that an accepted rule may have.
pub const MOST_WIDTH: usize = 5;

/// The least place from which cell 0 of an image may depend under an accepted rule.
pub const LEAST_PLACE: i8 = -16;

/// The greatest place from which cell 0 of an image may depend under an accepted rule.
pub const GREATEST_PLACE: i8 = 16;

/// The greatest number of nodes, which are the words of m - 1 letters.
pub const MOST_NODES: usize = 16;

/// The greatest number of pairs of nodes.
pub const MOST_PAIRS: usize = 256;

/// The greatest number of letters in a table. A rule of 16 states and width 2 has this many.
pub const MOST_ENTRIES: usize = 256;

/// Why a rule isn't accepted: the limit that it breaks.
#[derive(Clone, Copy, Debug, PartialEq, Eq)]
pub enum RuleFault {
    /// The number of states isn't from 2 to 16.
    States,
    /// The width isn't from 2 to 5.
    Width,
    /// There are more than 16 words of m - 1 letters.
    Nodes,
    /// The window of a cell reaches further than 16 cells to the left or to the right of the cell.
    Offset,
    /// The table doesn't have one letter for each window.
    Length,
    /// The letter at this place of the table isn't below k. It is the first such letter.
    Letter(u16),
}

/// An accepted local rule. Contracts treat it as a `LocalRule`, which consists of states, width, offset and table.
#[derive(Clone, Copy, Debug)]
pub struct Rule {
    // The number of states, from 2 to 16.
    k: u8,
    // The number of letters in a window, from 2 to 5.
    m: u8,
    // The place at which the window of cell 0 begins, from -16 to 15.
    o: i8,
    // The number of nodes, which are the words of m - 1 letters.
    nodes: u8,
    // The letters of the table, followed by zeros.
    entries: [u8; MOST_ENTRIES],
}

impl Model for Rule {
    ghost use Rattle.std.specs.Prelude.{◌≡◌, ◌^◌, ◌-◌, length, take, drop, replicate};
    ghost use Rattle.std.proofs.Common.{sym};
    ghost use Rattle.word_image.specs.LocalRules.{LocalRule, IsRule, node_count, most_windows};
    ghost use Rattle.word_image.specs.Storage.{padded, in_row-take};

    ghost Value = { LocalRule };

    ghost view = { λ r. record { states = r.k; width = r.m; offset = r.o; table = take (r.k ^ r.m) r.entries } };

    ghost invariant = { λ r. IsRule (record { states = r.k; width = r.m; offset = r.o; table = take (r.k ^ r.m) r.entries })
        × (drop (r.k ^ r.m) r.entries ≡ replicate (most_windows - r.k ^ r.m) 0) × (r.nodes ≡ r.k ^ (r.m - 1)) };

    ghost inverse = { λ v. record { k = v.states; m = v.width; o = v.offset; nodes = node_count v; entries = padded v.table } };

    ghost inverse_ok = { λ r h i. record {
      k = r.k;
      m = r.m;
      o = r.o;
      nodes = sym h.2 i;
      entries = in_row-take most_windows (r.k ^ r.m) r.entries h.0.entries h.1 i;
    } };
}

impl Rule {
    ghost use Rattle.word_image.specs.LocalRules.{LocalRule, IsRule, local_map, mirrored, node_count};
    ghost use Rattle.word_image.specs.RulesBy.{IsRuleBy};
    ghost use Rattle.word_image.specs.RuleFaults.{rule_fault};
    ghost use Rattle.word_image.specs.Graphs.{node_letter};
    ghost use Rattle.word_image.specs.Words.{image};

    /// Makes the rule with k states, width m, offset o and this table. The letters of the table are in the order of the
    /// windows' values. If a rule can't have these parts, returns the first fault, in the order of `RuleFault`.
    pub fn new(k: u8, m: u8, o: i8, table: &[u8]) -> Result<Rule, RuleFault>
        ensures rule { IfOk result (λ r. r ≡ record { states = k; width = m; offset = o; table = table.now }) }
        ensures fault { result_err result ≡ rule_fault k m o table.now }
        ensures accepted { IsOk result ↔ IsRule (record { states = k; width = m; offset = o; table = table.now }) }
    {
        check_shape(k, m, o)?;
        check_table(k, m, table)?;
        Ok(Rule {
            k,
            m,
            o,
            nodes: node_count(k, m),
            entries: padded_table(table),
        })
    }

    /// Makes the rule with k states, width m and offset o whose table has the letter `letter(value)` for the window
    /// with the value `value`.
    pub fn from_fn<F: Fn(u16) -> u8>(k: u8, m: u8, o: i8, letter: F) -> Rule
        requires rule { (r : LocalRule) × IsRuleBy k m o (F.post letter) r }
        requires callable { (v : ℕ) → v < k ^ m → F.pre letter v }
        ensures { (r : LocalRule) → IsRuleBy k m o (F.post letter) r → result ≡ r }
    {
        let mut entries = [0; MOST_ENTRIES];
        for window in 0..u16::from(k).pow(u32::from(m)) {
            entries[usize::from(window)] = letter(window);
        }
        Rule {
            k,
            m,
            o,
            nodes: node_count(k, m),
            entries,
        }
    }

    /// Does nothing. Its contract says that a rule keeps all limits in `RuleFault`.
    pub fn keeps_limits(&self)
        ensures { IsRule self.now }
    {
        let _ = &self.k;
    }

    /// Returns the number of states k, from 2 to 16.
    pub fn k(&self) -> u8
        ensures states { result ≡ self.now.states }
        ensures rule { IsRule self.now }
    {
        self.k
    }

    /// Returns the width m, from 2 to 5.
    pub fn m(&self) -> u8
        ensures width { result ≡ self.now.width }
        ensures rule { IsRule self.now }
    {
        self.m
    }

    /// Returns the offset o, from -16 to 15.
    pub fn o(&self) -> i8
        ensures offset { result ≡ self.now.offset }
        ensures rule { IsRule self.now }
    {
        self.o
    }

    /// Returns the number of windows, which is the number of letters in the table: `k^m`, at most 256.
    pub fn size(&self) -> u16
        ensures size { result ≡ self.now.states ^ self.now.width }
        ensures rule { IsRule self.now }
    {
        u16::from(self.k).pow(u32::from(self.m))
    }

    /// Returns the number of nodes of the de Bruijn graph, which are the words of m - 1 letters: at most 16.
    pub fn nodes(&self) -> u8
        ensures nodes { result ≡ node_count self.now }
        ensures rule { IsRule self.now }
    {
        self.nodes
    }

    /// Returns the table: the letter for each window, in the order of the windows' values.
    pub fn table(&self) -> &[u8]
        ensures table { result.now ≡ self.now.table }
    {
        &self.entries[..usize::from(self.size())]
    }

    /// Returns the letter for the window with this value, which is below `k^m`.
    pub fn at(&self, value: u16) -> u8
        requires { value < self.now.states ^ self.now.width }
        ensures entry { result ≡ slice_index self.now.table value }
        ensures letter { result < self.now.states }
    {
        self.entries[usize::from(value)]
    }

    /// Returns the letter at a place of a node, which is a word of m - 1 letters. `place` counts from the left end,
    /// starting at 0.
    pub fn node_letter(&self, node: u8, place: u8) -> u8
        requires node { node < node_count self.now }
        requires place { place < self.now.width - 1 }
        ensures letter { result ≡ node_letter self.now node place }
    {
        let after = self.m() - 2 - place;
        node / self.k().pow(u32::from(after)) % self.k()
    }

    /// Returns the letter that the rule gives for a window of m letters below k.
    pub fn apply(&self, window: &[u8]) -> u8
        requires word { IsWord self.now.states window.now }
        requires long { length window.now ≡ self.now.width }
        ensures value { result ≡ local_map self.now window.now }
        ensures letter { result < self.now.states }
    {
        self.at(value_of(self.k, window))
    }

    /// Returns the mirrored rule. It gives for each window the letter that this rule gives for the reversed window.
    /// Its offset is -o - (m - 1), so that the window is mirrored at cell 0.
    pub fn reflect(&self) -> Rule
        ensures mirrored { result ≡ mirrored self.now }
        ensures image { (x : List ℕ) → IsWord self.now.states x → image result (reverse x) ≡ reverse (image self.now x) }
    {
        let (k, m) = (self.k(), self.m());
        Rule::from_fn(
            k,
            m,
            self.mirrored_offset(),
            |window| self.at(backwards(k, m, window)),
        )
    }

    /// Returns the offset of the mirrored rule.
    fn mirrored_offset(&self) -> i8
        ensures { result ≡ (mirrored self.now).offset }
    {
        -(self.o() + (self.m() as i8 - 1))
    }
}

impl PartialEq for Rule {
    ghost eq = { same_rule };

    ghost laws = { Prim.search (comparing, rules) depth 9 };

    /// Returns whether two rules have the same states, width, offset and table.
    fn eq(&self, other: &Rule) -> bool
        ensures parts { result ≡ same_rule self.now other.now }
        ensures same { IsTrue result ↔ (self.now ≡ other.now) }
    {
        self.k == other.k && self.m == other.m && self.o == other.o && self.entries == other.entries
    }
}

impl Eq for Rule {
    ghost laws = { Prim.search (comparing, rules) depth 9 };
}

/// Returns the letters of a table, followed by zeros.
fn padded_table(table: &[u8]) -> [u8; MOST_ENTRIES]
    requires { length table.now ≤ most_windows }
    ensures { result ≡ padded table.now }
{
    let mut entries = [0; MOST_ENTRIES];
    entries[..table.len()].copy_from_slice(table);
    entries
}

/// Returns the number of words of m - 1 letters below k. Some rule must have k states and width m.
fn node_count(k: u8, m: u8) -> u8
    requires { (o : ℤ) × IsShape k m o }
    ensures { result ≡ k ^ (m - 1) }
{
    k.pow(u32::from(m - 1))
}

/// Checks whether a rule can have k states, width m and offset o. Returns the first of `States`, `Width`, `Nodes` and
/// `Offset` that applies, if any.
pub fn check_shape(k: u8, m: u8, o: i8) -> Result<(), RuleFault>
    ensures { result_err result ≡ shape_fault k m o }
{
    if k < 2 || k > MOST_STATES as u8 {
        return Err(RuleFault::States);
    }
    if m < 2 || m > MOST_WIDTH as u8 {
        return Err(RuleFault::Width);
    }
    if u32::from(k).pow(u32::from(m - 1)) > MOST_NODES as u32 {
        return Err(RuleFault::Nodes);
    }
    let last = i16::from(o) + i16::from(m) - 1;
    if o < LEAST_PLACE || last > i16::from(GREATEST_PLACE) {
        return Err(RuleFault::Offset);
    }
    Ok(())
}

/// Checks whether this can be the table of a rule with k states and width m. Returns the first of `Length` and `Letter`
/// that applies, if any. There are at most 256 windows.
fn check_table(k: u8, m: u8, table: &[u8]) -> Result<(), RuleFault>
    requires { k ^ m ≤ most_windows }
    ensures { result_err result ≡ table_fault k m table.now }
{
    if table.len() != usize::from(k).pow(u32::from(m)) {
        return Err(RuleFault::Length);
    }
    match first_foreign(k, table) {
        Some(place) => Err(RuleFault::Letter(place as u16)),
        None => Ok(()),
    }
}

/// Returns the place of the first letter of the word that isn't below k, if there is one.
pub fn first_foreign(k: u8, word: &[u8]) -> Option<usize>
    ensures place { result ≡ position (λ a. nat_le k a) word.now }
    ensures within { IfSome result (λ i. i < length word.now) }
{
    word.iter().position(|letter| *letter >= k)
}

/// Returns the value of a window of letters below k. The value fits because at most 256 words have this length.
fn value_of(k: u8, window: &[u8]) -> u16
    requires word { IsWord k window.now }
    requires fits { k ^ length window.now ≤ most_windows }
    ensures { result ≡ value k window.now }
{
    let mut value = 0;
    for letter in window {
        value = value * u16::from(k) + u16::from(*letter);
    }
    value
}

/// Returns the value of the reversed window. `window` is the value of the window itself, which has m letters below k.
fn backwards(k: u8, m: u8, window: u16) -> u16
    requires states { 0 < k }
    requires fits { k ^ m ≤ most_windows }
    requires window { window < k ^ m }
    ensures value { result ≡ value k (reverse (word_of k m window)) }
    ensures below { result < k ^ m }
{
    value_by(k, m, |place| letter_of(k, m, window, m - 1 - place))
}
