//! The least word whose set has the fewest nodes.
//!
//! The set of a word consists of the last nodes of its preimages, which are the last m - 1 letters of each word whose
//! image it is.

ghost use Rattle.std.specs.Prelude.{◌≡◌, ◌≢◌, ◌+◌, ◌*◌, ◌≤◌, ◌<◌, ℕ, List, [], length, slice_index, count_ones, vec_capacity, IfOk};
ghost use Rattle.std.specs.declared.cmp.Ordering.TheVariants.{Greater};
ghost use Rattle.word_image.specs.Words.{word_cmp};
ghost use Rattle.word_image.specs.Ranks.{IsLastSet};
ghost use Rattle.search_laws.specs.SearchQueues.{Place, TreeSpells};
ghost use Rattle.image_subsets.specs.SmallestSets.{IsDescent, AreEarlier, AreWays};
ghost use Rattle.image_subsets.specs.StepTables.{AreTables};

use crate::masks::{MOST_SETS, Masks};
use crate::step_tables::StepTables;
use debruijn::Graph;
use std::alloc::{AllocError, Global};
use std::marker::Model;

/// A search for the least word whose set has the fewest nodes. Contracts treat a search as the list of the sets that its
/// last run found. `new` allocates all memory, less than 1 MB.
///
/// A run goes breadth first through the sets, with letters ascending. It stops at the first set that has few enough
/// nodes. It takes time **O(s k + 2^8 k)** for s sets. If there are N nodes, s is at most 2^N, so at most 65,536.
#[derive(Debug, Drop)]
pub struct Smallest {
    // The sets, in the order in which they were found.
    sets: Masks,
    // For each set the place and the letter from which the set was found, or None for the set of all nodes.
    parents: Vec<Option<(u16, u8)>>,
    // The tables of steps of the graph that was searched last.
    tables: StepTables,
}

impl Model for Smallest {
    ghost use Rattle.std.specs.Prelude.{List, ℕ, ◌≤◌, vec_capacity};
    ghost use Rattle.image_subsets.specs.declared.masks.TheConstants.{MOST_SETS};

    ghost Value = { List ℕ };

    ghost view = { λ s. s.sets };

    ghost invariant = { λ s. MOST_SETS ≤ vec_capacity s.parents };
}

impl Smallest {
    /// Allocates the memory of a search. It has no sets until it runs. The only error is lack of memory.
    pub fn new(alloc: Global) -> Result<Smallest, AllocError>
        ensures { IfOk result (λ search. search ≡ []) }
    {
        Ok(Smallest {
            sets: Masks::new(alloc)?,
            parents: Vec::with_capacity(alloc, MOST_SETS)?,
            tables: StepTables::new(alloc)?,
        })
    }

    /// Writes the least word whose set has the fewest nodes into an empty list, and returns this set. If some set has at
    /// most `enough` nodes, this is the least word with such a set, and a later word may have a set with still fewer nodes.
    pub fn find(&mut self, graph: &Graph, enough: u32, word: &mut Vec<u8>) -> u16
        requires empty { word.old.items ≡ [] }
        requires room { MOST_SETS ≤ vec_capacity word.old }
        ensures set { IsLastSet graph.now word.new.items result }
        ensures fewest { enough < count_ones result → (v : List ℕ) (set : ℕ) → IsLastSet graph.now v set → count_ones result ≤ count_ones set }
        ensures first { (v : List ℕ) (set : ℕ) → IsLastSet graph.now v set → count_ones set ≤ count_ones result → word_cmp word.new.items v ≢ Greater }
        ensures short { length word.new.items ≤ 65535 }
        ensures capacity { vec_capacity word.new ≡ vec_capacity word.old }
    {
        self.tables.fill(graph);
        self.sets.clear();
        self.parents.clear();
        self.sets.insert(graph.full());
        self.parents.push_reserved(None);
        let mut smallest = 0;
        let mut place = 0;
        while place < self.sets.len() && self.sets.at(smallest).count_ones() > enough {
            smallest = follow(
                graph,
                &self.tables,
                &mut self.sets,
                &mut self.parents,
                enough,
                place,
                smallest,
            );
            place += 1;
        }
        write_letters(&self.parents, smallest, word);
        self.sets.at(smallest)
    }
}

/// Follows the steps from the set at this place, and appends each set to which they lead if the list doesn't have it
/// yet. Returns the place of the first of the smallest sets. Stops after it has appended a set with at most `enough`
/// nodes.
fn follow(
    graph: &Graph,
    tables: &StepTables,
    sets: &mut Masks,
    parents: &mut Vec<Option<(u16, u8)>>,
    enough: u32,
    place: usize,
    before: usize,
) -> usize
    requires tables { AreTables graph.now tables.now }
    requires place { place < length sets.old }
    requires search { IsDescent graph.now sets.old parents.old.items enough (place * graph.now.states) before }
    requires more { enough < count_ones (slice_index sets.old before) }
    requires room { MOST_SETS ≤ vec_capacity parents.old }
    ensures search { IsDescent graph.now sets.new parents.new.items enough ((place + 1) * graph.now.states) result }
    ensures capacity { vec_capacity parents.new ≡ vec_capacity parents.old }
{
    let steps = tables.steps(sets.at(place));
    let mut smallest = before;
    let mut fewest = sets.at(before).count_ones();
    for letter in 0..graph.k() {
        let after = steps[usize::from(letter)];
        if sets.insert(after) {
            parents.push_reserved(Some((place as u16, letter)));
            let count = after.count_ones();
            if count < fewest {
                smallest = sets.len() - 1;
                fewest = count;
                if count <= enough {
                    return smallest;
                }
            }
        }
    }
    smallest
}

/// Writes the letters of the steps that lead from the first place to place `i` into an empty list.
fn write_letters(parents: &[Option<(u16, u8)>], i: usize, word: &mut Vec<u8>)
    requires place { i < length parents.now }
    requires earlier { AreEarlier parents.now }
    requires empty { word.old.items ≡ [] }
    requires room { i ≤ vec_capacity word.old }
    ensures spelled { (tree : List (Place ℕ)) → AreWays tree parents.now → TreeSpells tree i word.new.items }
    ensures short { length word.new.items ≤ i }
    ensures capacity { vec_capacity word.new ≡ vec_capacity word.old }
{
    let mut place = i;
    while let Some((parent, letter)) = parents[place] {
        word.push_reserved(letter);
        place = usize::from(parent);
    }
    word.reverse();
}
