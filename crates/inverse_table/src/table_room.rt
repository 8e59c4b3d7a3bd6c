//! The type `TableRoom`, which computes inverse maps in memory that it allocates once.
ghost use Rattle.std.specs.Prelude.{◌≡◌, ◌+◌, ◌-◌, ◌^◌, ◌≤◌, neg_ℤ, ◌-ℤ◌, pos, vec_capacity, IfOk, IfErr, IsOk, MatchResult, SomeIff};
ghost use Rattle.word_image.specs.LocalRules.{IsRule};
ghost use Rattle.word_image.specs.Windows.{IsDetermined};
ghost use Rattle.tail_config.specs.InverseMaps.{IsInverseMap};
ghost use Rattle.inverse_table.specs.MapLimits.{longest_window, most_map_entries};
ghost use Rattle.inverse_table.specs.ImageValues.{AreImageValues};
ghost use Rattle.inverse_table.specs.InverseMaps.{AreMapLetters, GivesBack};
ghost use Rattle.inverse_table.specs.InverseFaults.{IsNoMap};

use crate::image_values::{MOST_IMAGES, write_images};
use crate::lent_map::LentMap;
use crate::letters::{Place, UNREAD, read_letters};
use inverse_window::WindowAt;
use std::alloc::{AllocError, Global};
use std::marker::Model;
use word_image::Rule;

/// The greatest number of words of n letters for which a map is computed. The map has a letter for each of these
/// words.
const MOST_WORDS: u64 = 65536;

/// Why a window has no inverse map.
#[derive(Clone, Copy, Debug, PartialEq, Eq)]
pub enum NoMap {
    /// There are more than 65,536 words of n letters.
    Wide,
    /// The two words of n + m - 1 letters with the values x and y have the same image and different letters at place c.
    /// So the window isn't determined.
    NotDetermined { x: usize, y: usize },
}

/// Computes inverse maps in memory that it allocates once, some 2 MB, and in a list of numbers that it is lent.
/// Contracts say nothing about its contents, because no map depends on an earlier one.
#[derive(Debug, Drop)]
pub struct TableRoom {
    // What allocated the lists.
    alloc: Global,
    // The values of the images of all words of one length, with capacity for `MOST_IMAGES` of them. A list that is lent
    // has those of the words that are one letter longer or shorter. The two lists take turns.
    other: Vec<u16>,
    // The letters of the last map, with capacity for 65,536 of them.
    letters: Vec<u8>,
}

impl Model for TableRoom {
    ghost use Rattle.std.specs.Prelude.{⊤, ◌≤◌, vec_capacity};
    ghost use Rattle.inverse_table.specs.MapLimits.{most_map_entries};
    ghost use Rattle.inverse_table.specs.declared.image_values.TheConstants.{MOST_IMAGES};

    ghost Value = { ⊤ };

    ghost view = { λ r. tt };

    ghost invariant = { λ r. (MOST_IMAGES ≤ vec_capacity r.other) × (most_map_entries ≤ vec_capacity r.letters) };
}

impl TableRoom {
    /// Allocates the memory of all maps, and writes nothing to it. The only error is lack of memory.
    pub fn new(alloc: Global) -> Result<TableRoom, AllocError> {
        Ok(TableRoom {
            alloc,
            other: Vec::with_capacity(alloc, MOST_IMAGES)?,
            letters: Vec::with_capacity(alloc, MOST_WORDS as usize)?,
        })
    }

    /// Returns the inverse map of a rule over the window (n, c), for 1 ≤ n ≤ 480 and c ≤ n + m - 2. The map has a
    /// letter for each word of n letters: the letter at place c of every preimage of the word.
    ///
    /// Returns `Wide` if there are more than 65,536 words of n letters. Otherwise returns `NotDetermined` if the window
    /// isn't determined, that is, if two words with the same image differ at place c. It needs no memory.
    ///
    /// What `numbers` has before and afterwards means nothing. The list lends its capacity for `MOST_IMAGES` numbers.
    pub fn table(
        &mut self,
        numbers: &mut Vec<u16>,
        rule: &Rule,
        at: WindowAt,
    ) -> Result<LentMap<'_>, NoMap>
        requires room { MOST_IMAGES ≤ vec_capacity numbers.old }
        requires some { 1 ≤ at.n }
        requires most { at.n ≤ longest_window }
        requires inside { at.c ≤ at.n + rule.now.width - 2 }
        ensures map { IfOk result (IsInverseMap rule.now at.n at.c) }
        ensures gives_back { IfOk result (GivesBack rule.now at.n at.c) }
        ensures determined { IsOk result → IsDetermined rule.now at.n at.c }
        ensures fault { MatchResult result (λ _. rule.now.states ^ at.n ≤ most_map_entries) (IsNoMap rule.now at.n at.c) }
        ensures room { MOST_IMAGES ≤ vec_capacity numbers.new }
    {
        let Some(count) = word_count(rule, at.n) else {
            return Err(NoMap::Wide);
        };
        write_images(self.alloc, rule, at.n, numbers, &mut self.other);
        read_back(rule, at, count, numbers, &mut self.letters)?;
        Ok(LentMap::of(rule.k(), at.n, map_offset(rule, at.c), &self.letters))
    }
}

/// Fills `letters` with the letters of the inverse map over a window, from the images of all words of n + m - 1 letters.
/// `count` is the number of words of n letters. Returns `NotDetermined` if the window isn't determined.
fn read_back(
    rule: &Rule,
    at: WindowAt,
    count: usize,
    images: &[u16],
    letters: &mut Vec<u8>,
) -> Result<(), NoMap>
    requires some { 1 ≤ at.n }
    requires inside { at.c ≤ at.n + rule.now.width - 2 }
    requires few { rule.now.states ^ at.n ≤ most_map_entries }
    requires count { count ≡ rule.now.states ^ at.n }
    requires images { AreImageValues rule.now at.n images.now }
    requires room { most_map_entries ≤ vec_capacity letters.old }
    ensures letters { IfOk result (λ _. AreMapLetters rule.now at.n at.c letters.new.items) }
    ensures fault { IfErr result (IsNoMap rule.now at.n at.c) }
    ensures room { most_map_entries ≤ vec_capacity letters.new }
{
    let place = place_of(rule, at);
    letters.clear();
    letters.resize(count, UNREAD).unwrap();
    match read_letters(letters, images, place) {
        None => Ok(()),
        Some((x, y)) => Err(NoMap::NotDetermined { x, y }),
    }
}

/// Returns the offset of the inverse map for the letter at place c. It is -o - c if o is the offset of the rule.
fn map_offset(rule: &Rule, c: u16) -> i32
    ensures { result ≡ neg_ℤ rule.now.offset -ℤ pos c }
{
    -i32::from(rule.o()) - i32::from(c)
}

/// Returns the number of words of n letters, or None if there are more than 65,536.
pub(crate) fn word_count(rule: &Rule, n: u16) -> Option<usize>
    ensures { SomeIff result (rule.now.states ^ n ≤ most_map_entries) (rule.now.states ^ n) }
{
    match u64::from(rule.k()).checked_pow(u32::from(n)) {
        Some(count) if count <= MOST_WORDS => Some(count as usize),
        _ => None,
    }
}

/// Returns the place c of the window (n, c), as a place in words of n + m - 1 letters.
fn place_of(rule: &Rule, at: WindowAt) -> Place
    requires inside { at.c ≤ at.n + rule.now.width - 2 }
    requires fits { rule.now.states ^ at.n ≤ most_map_entries }
    ensures rule { IsRule rule.now }
    ensures states { result.k ≡ rule.now.states }
    ensures unit { result.unit ≡ rule.now.states ^ (at.n + (rule.now.width - 1) - 1 - at.c) }
{
    let behind = u32::from(at.n) + u32::from(rule.m()) - 2 - u32::from(at.c);
    let k = usize::from(rule.k());
    Place {
        k,
        unit: k.pow(behind),
    }
}
