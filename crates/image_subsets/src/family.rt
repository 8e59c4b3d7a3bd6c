//! The family of a rule: its sets of last nodes, in the order in which a search finds them.
//!
//! The set of a word consists of the last nodes of its preimages, which are the last m - 1 letters of each word whose
//! image it is. A step on the letter a leads from the set of a word to the set of this word followed by a.

ghost use Rattle.std.specs.Prelude.{◌≡◌, ◌≢◌, ◌+◌, ◌*◌, ◌≤◌, ◌<◌, AllPairs, Contains, [], length, slice_index, slice_get, vec_capacity, Some, MatchOption, false, IfOk};
ghost use Rattle.word_image.specs.LocalRules.{LocalRule, most_sets};
ghost use Rattle.image_subsets.specs.FamilyTrees.{IsFamilyTree};
ghost use Rattle.image_subsets.specs.Searches.{IsExpanded};
ghost use Rattle.image_subsets.specs.StepTables.{AreTables};
ghost use Rattle.word_image.specs.Families.{IsLeastWordOf, is_minimal};

use crate::marks::Marks;
use crate::masks::{MOST_SETS, Masks};
use crate::step_tables::StepTables;
use debruijn::Graph;
use std::alloc::{AllocError, Global};
use std::marker::Model;

/// The family of a rule: its sets of last nodes in the order of their least words, up to and including the empty set if
/// there is one, and the parent of each set. The search found a set by a step from an earlier set. The parent is the
/// place of the earlier set, and the letter of the step. Contracts treat a family as the list of sets and the list of
/// their parents. `new` allocates all memory, less than 1 MB, once.
///
/// `explore` is the subset construction: breadth first, with letters ascending. It takes time **O(s k + 2^8 k)** for
/// s sets, and **O(N 2^N)** more if no set is empty. If there are N nodes, s is at most 2^N, so at most 65,536.
#[derive(Debug, Drop)]
pub struct Family {
    // The sets, in the order in which they were found.
    sets: Masks,
    // For each set its parent: the place and the letter from which the set was found, or None for the set of all
    // nodes.
    parents: Vec<Option<(u16, u8)>>,
    // The tables of steps of the graph that was explored last.
    tables: StepTables,
    // If no set is empty, a mark on each set that contains another set of the family.
    marks: Marks,
}

impl Model for Family {
    ghost use Rattle.std.specs.Prelude.{◌≤◌, ◌<◌, length, vec_capacity, Contains};
    ghost use Rattle.image_subsets.specs.declared.masks.TheConstants.{MOST_SETS};
    ghost use Rattle.image_subsets.specs.FamilyTrees.{FamilyTree, IsTree};
    ghost use Rattle.image_subsets.specs.Marks.{AreCovers};

    ghost Value = { FamilyTree };

    ghost view = { λ f. record { sets = f.sets; parents = f.parents.items } };

    ghost invariant = { λ f. (MOST_SETS ≤ vec_capacity f.parents) × IsTree (record { sets = f.sets; parents = f.parents.items })
        × (0 < length f.sets → ¬ Contains f.sets 0 → AreCovers f.sets f.marks) };
}

impl Family {
    /// Allocates the memory of a family. The family has no sets until a graph is explored. The only error is lack of
    /// memory.
    pub fn new(alloc: Global) -> Result<Family, AllocError>
        ensures { IfOk result (λ family. family.sets ≡ []) }
    {
        Ok(Family {
            sets: Masks::new(alloc)?,
            parents: Vec::with_capacity(alloc, MOST_SETS)?,
            tables: StepTables::new(alloc)?,
            marks: Marks::new(alloc)?,
        })
    }

    /// Replaces the contents by the family of this graph's rule.
    pub fn explore(&mut self, graph: &Graph)
        ensures { IsFamilyTree graph.now self.new }
    {
        self.tables.fill(graph);
        self.sets.clear();
        self.parents.clear();
        self.sets.insert(graph.full());
        self.parents.push_reserved(None);
        let mut place = 0;
        while place < self.sets.len() {
            if expand(
                graph,
                &self.tables,
                &mut self.sets,
                &mut self.parents,
                place,
            ) {
                return;
            }
            place += 1;
        }
        self.marks.mark(&self.sets, graph.nodes());
    }

    /// Returns the number of sets in the family: 0 before a graph is explored, and from 1 to 65,536 after.
    pub fn len(&self) -> u32
        ensures len { result ≡ length self.now.sets }
        ensures most { result ≤ most_sets }
        ensures apart { AllPairs (λ s t. s ≢ t) self.now.sets }
    {
        self.sets.len() as u32
    }

    /// Returns whether the set at place `i` contains no other set of the family. It may be called only if no set of
    /// the family is empty. Takes O(1) time, since `explore` has stored marks for this.
    pub fn minimal(&self, i: u32) -> bool
        requires place { i < length self.now.sets }
        requires nonempty { ¬ Contains self.now.sets 0 }
        ensures { result ≡ is_minimal self.now.sets (slice_index self.now.sets i) }
    {
        !self.marks.has(self.set(i))
    }

    /// Returns the set at place `i`. Bit u stands for node u.
    pub fn set(&self, i: u32) -> u16
        requires { i < length self.now.sets }
        ensures { result ≡ slice_index self.now.sets i }
    {
        self.sets.at(i as usize)
    }

    /// Returns the sets of the family in their order.
    pub fn sets(&self) -> &[u16]
        ensures { result.now ≡ self.now.sets }
    {
        self.sets.as_slice()
    }

    /// Returns the parent of the set at place `i`: the least place from which a step leads to this set, and the least
    /// letter of such a step. Returns None for the set of all nodes, which is first.
    pub fn parent(&self, i: u32) -> Option<(u32, u8)>
        requires { i < length self.now.sets }
        ensures parent { slice_get self.now.parents i ≡ Some result }
        ensures earlier { MatchOption result (i ≡ 0) (λ (p, a). p < i) }
    {
        match self.parents[i as usize] {
            Some((place, letter)) => Some((u32::from(place), letter)),
            None => None,
        }
    }

    /// Writes the least word whose set is at place `i` into an empty list. Its letters are those of the steps by which the
    /// search came from the first set to this set.
    pub fn write_word(&self, i: u32, word: &mut Vec<u8>)
        requires set { i < length self.now.sets }
        requires empty { word.old.items ≡ [] }
        requires room { i ≤ vec_capacity word.old }
        ensures least { (r : LocalRule) → IsFamilyTree r self.now → IsLeastWordOf r (slice_index self.now.sets i) word.new.items }
        ensures short { length word.new.items ≤ i }
        ensures capacity { vec_capacity word.new ≡ vec_capacity word.old }
    {
        let mut place = i;
        while let Some((parent, letter)) = self.parent(place) {
            word.push_reserved(letter);
            place = parent;
        }
        word.reverse();
    }
}

/// Follows the steps from the set at this place, and appends each set to which they lead if the list doesn't have it
/// yet. Stops after it has appended the empty set. Returns whether it has appended the empty set.
fn expand(
    graph: &Graph,
    tables: &StepTables,
    sets: &mut Masks,
    parents: &mut Vec<Option<(u16, u8)>>,
    place: usize,
) -> bool
    requires tables { AreTables graph.now tables.now }
    requires place { place < length sets.old }
    requires search { IsExpanded graph.now sets.old parents.old.items (place * graph.now.states) false }
    requires room { MOST_SETS ≤ vec_capacity parents.old }
    ensures search { IsExpanded graph.now sets.new parents.new.items ((place + 1) * graph.now.states) result }
    ensures capacity { vec_capacity parents.new ≡ vec_capacity parents.old }
{
    let steps = tables.steps(sets.at(place));
    for letter in 0..graph.k() {
        let after = steps[usize::from(letter)];
        if sets.insert(after) {
            parents.push_reserved(Some((place as u16, letter)));
            if after == 0 {
                return true;
            }
        }
    }
    false
}
