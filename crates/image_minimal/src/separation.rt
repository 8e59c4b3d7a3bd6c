//! The function `separate`, which finds the least word that is an orphan of exactly one of two rules. An orphan is a
//! word without a preimage. The type `SeparationRoom` does the same in memory that is allocated once.

ghost use Rattle.std.specs.Prelude.{◌≡◌, ◌≢◌, ◌↔◌, ◌∷◌, [], ◌++◌, ◌^◌, ◌<◌, ◌≤◌, List, ℕ, length, slice_get, vec_capacity, Some, IfOk, IfSome, IsErrOf, IsTrue, MatchOption, false};
ghost use Rattle.word_image.specs.LocalRules.{IsRule, node_count, most_sets};
ghost use Rattle.image_subsets.specs.StepTables.{AreTables};
ghost use Rattle.image_minimal.specs.ImageLanguages.{HaveSameOrphans, Separates};
ghost use Rattle.std.specs.List.{range_with_len};
ghost use Rattle.image_minimal.specs.Links.{SpellsLink, most_links, set_count};
ghost use Rattle.image_minimal.specs.declared.links.Link.{Link};

use crate::joined::{MOST_NUMBERS, join, write_classes};
use crate::links::{Link, MOST_LINKS};
use debruijn::Graph;
use image_subsets::StepTables;
use std::alloc::{AllocError, Global};
use std::marker::Model;
use word_image::{Rule, Word};

/// Why two rules aren't compared.
#[derive(Debug, Drop)]
pub enum SepFault {
    /// The two rules have different numbers of states.
    States,
    /// There wasn't enough memory.
    Memory(AllocError),
}

impl From<AllocError> for SepFault {
    ghost use Rattle.image_minimal.specs.declared.separation.SepFault.TheVariants.{Memory};

    ghost from_gives = { λ e fault. fault ≡ Memory e };

    fn from(e: AllocError) -> SepFault {
        SepFault::Memory(e)
    }
}

/// Returns the least word that is an orphan of exactly one of the two rules, or None if the rules have the same
/// orphans.
///
/// If n sets of nodes are reached under both rules together, this takes time **O(n k log n)**, in a room of 2.8 MB.
pub fn separate(alloc: Global, first: &Rule, second: &Rule) -> Result<Option<Word>, SepFault>
    ensures states { IsErrOf result SepFault.States ↔ (first.now.states ≢ second.now.states) }
    ensures word { IfOk result (λ word. MatchOption word (HaveSameOrphans first.now second.now) (Separates first.now second.now)) }
{
    if first.k() != second.k() {
        return Err(SepFault::States);
    }
    let mut room = SeparationRoom::new(alloc)?;
    match room.separate(first, second) {
        Some(word) => Ok(Some(Word::of(Vec::from_slice(alloc, word)?))),
        None => Ok(None),
    }
}

/// The memory of comparisons of two rules, which is allocated once: 2.8 MB. Contracts say nothing about its contents,
/// because no result depends on an earlier comparison.
#[derive(Debug, Drop)]
pub struct SeparationRoom {
    // The steps between the sets of nodes of the first rule.
    first: StepTables,
    // The steps between the sets of nodes of the second rule.
    second: StepTables,
    // The sets of both rules, in the classes into which the links of the last search join them, with capacity for
    // `MOST_NUMBERS` sets.
    parents: Vec<u32>,
    // The links of the last search, with capacity for `MOST_LINKS` links.
    links: Vec<Link>,
    // The word that a search has found, with capacity for as many letters.
    word: Vec<u8>,
}

impl Model for SeparationRoom {
    ghost use Rattle.std.specs.Prelude.{⊤, ◌≤◌, vec_capacity};
    ghost use Rattle.image_minimal.specs.Joins.{most_numbers};
    ghost use Rattle.image_minimal.specs.Links.{most_links};

    ghost Value = { ⊤ };

    ghost view = { λ r. tt };

    ghost invariant = { λ r. (most_numbers ≤ vec_capacity r.parents) × (most_links ≤ vec_capacity r.links) × (most_links ≤ vec_capacity r.word) };
}

impl SeparationRoom {
    /// Allocates the memory of all comparisons. The only error is lack of memory.
    pub fn new(alloc: Global) -> Result<SeparationRoom, AllocError> {
        Ok(SeparationRoom {
            first: StepTables::new(alloc)?,
            second: StepTables::new(alloc)?,
            parents: Vec::with_capacity(alloc, MOST_NUMBERS)?,
            links: Vec::with_capacity(alloc, MOST_LINKS)?,
            word: Vec::with_capacity(alloc, MOST_LINKS)?,
        })
    }

    /// Returns the least word that is an orphan of exactly one of the two rules, or None if the rules have the same
    /// orphans. Both rules must have the same number of states. The word has at most 131,073 letters.
    pub fn separate(&mut self, first: &Rule, second: &Rule) -> Option<&[u8]>
        requires { first.now.states ≡ second.now.states }
        ensures word { MatchOption result (HaveSameOrphans first.now second.now) (λ word. Separates first.now second.now word.now) }
        ensures short { IfSome result (λ word. length word.now ≤ most_links) }
    {
        let (one, other) = (Graph::of(first), Graph::of(second));
        self.first.fill(&one);
        self.second.fill(&other);
        write_classes(&mut self.parents, count_sets(&one) + count_sets(&other));
        if search(
            &one,
            &self.first,
            &other,
            &self.second,
            &mut self.parents,
            &mut self.links,
            &mut self.word,
        ) {
            Some(&self.word)
        } else {
            None
        }
    }
}

/// Searches for the least word that is an orphan of exactly one rule. Writes it into `word` and returns true, or
/// returns false if the rules have the same orphans. Both rules must have the same number of states. A link is a pair of
/// sets of last nodes that the same word has under the two rules. `parents` puts each set of both rules into a class of
/// its own, and the tables have the steps of the sets. The search follows links breadth first, with letters ascending,
/// until a letter leads to two sets of which exactly one is empty.
fn search(
    first: &Graph,
    first_steps: &StepTables,
    second: &Graph,
    second_steps: &StepTables,
    parents: &mut [u32],
    links: &mut Vec<Link>,
    word: &mut Vec<u8>,
) -> bool
    requires states { first.now.states ≡ second.now.states }
    requires first { AreTables first.now first_steps.now }
    requires second { AreTables second.now second_steps.now }
    requires classes { parents.old ≡ range_with_len 0 (set_count first.now second.now) }
    requires links { most_links ≤ vec_capacity links.old }
    requires word { most_links ≤ vec_capacity word.old }
    ensures found { IsTrue result → Separates first.now second.now word.new.items }
    ensures none { result ≡ false → HaveSameOrphans first.now second.now }
    ensures short { IsTrue result → length word.new.items ≤ most_links }
    ensures links { vec_capacity links.new ≡ vec_capacity links.old }
    ensures word { vec_capacity word.new ≡ vec_capacity word.old }
{
    let below = count_sets(first);
    links.clear();
    links.push_reserved(Link {
        first: first.full(),
        second: second.full(),
        parent: 0,
        letter: 0,
    });
    let mut place = 0;
    while place < links.len() {
        let link = links[place];
        let firsts = first_steps.steps(link.first);
        let seconds = second_steps.steps(link.second);
        for letter in 0..first.k() {
            let s = firsts[letter as usize];
            let t = seconds[letter as usize];
            if (s == 0) != (t == 0) {
                write_word(links, place, letter, word);
                return true;
            }
            // If earlier links already join the two sets, they aren't made a link.
            if join(parents, u32::from(s), below + u32::from(t)) {
                links.push_reserved(Link {
                    first: s,
                    second: t,
                    parent: place,
                    letter,
                });
            }
        }
        place += 1;
    }
    false
}

/// Returns the number of sets of nodes, which is 2 to the power of the number of nodes.
fn count_sets(graph: &Graph) -> u32
    ensures count { result ≡ 2 ^ node_count graph.now }
    ensures most { result ≤ most_sets }
    ensures rule { IsRule graph.now }
{
    1u32 << graph.nodes()
}

/// Writes the word that reaches the link at place `at`, followed by the letter `last`. It has at most as many letters
/// as there are links.
fn write_word(links: &[Link], at: usize, last: u8, word: &mut Vec<u8>)
    requires at { at < length links.now }
    requires earlier { (i : ℕ) (x : Link) → 0 < i → slice_get links.now i ≡ Some x → x.parent < i }
    requires capacity { length links.now ≤ vec_capacity word.old }
    ensures word { (w : List ℕ) → SpellsLink links.now at w → word.new.items ≡ w ++ last ∷ [] }
    ensures short { length word.new.items ≤ length links.now }
    ensures capacity { vec_capacity word.new ≡ vec_capacity word.old }
{
    word.clear();
    word.push_reserved(last);
    let mut place = at;
    while place > 0 {
        let link = links[place];
        word.push_reserved(link.letter);
        place = link.parent;
    }
    word.reverse();
}
