//! A list of different sets of nodes, in the order in which they were inserted.

ghost use Rattle.std.specs.Prelude.{◌≡◌, ◌≢◌, ◌<◌, ◌↔◌, AllPairs, List, ℕ, [], length, slice_index, Contains, IfOk};
ghost use Rattle.word_image.specs.LocalRules.{most_sets};
ghost use Rattle.image_subsets.specs.Masks.{IsInserted};
ghost use Rattle.image_subsets.specs.Marks.{IsSetMarked};

use crate::rows::{MOST_ROWS, is_marked, unmark};
use std::alloc::{AllocError, Global};
use std::marker::Model;
use word_image::MOST_NODES;

/// The number of different sets of 16 nodes.
pub const MOST_SETS: usize = 1 << MOST_NODES;

/// A list of different sets of nodes. Contracts treat it as the plain list of the sets. `new` allocates all memory.
///
/// It takes O(1) time to look up a set. Clearing the list takes time proportional to its length.
#[derive(Debug, Drop)]
pub(crate) struct Masks {
    // The sets in their order.
    sets: Vec<u16>,
    // Rows of marks on all possible sets. A set is marked if and only if it is in the list.
    members: Vec<u64>,
}

impl Model for Masks {
    ghost use Rattle.std.specs.Prelude.{List, ℕ, ◌≤◌, vec_capacity};
    ghost use Rattle.image_subsets.specs.declared.masks.TheConstants.{MOST_SETS};
    ghost use Rattle.image_subsets.specs.Masks.{AreMembers};

    ghost Value = { List ℕ };

    ghost view = { λ m. m.sets.items };

    ghost invariant = { λ m. (MOST_SETS ≤ vec_capacity m.sets) × AreMembers m.sets.items m.members.items };
}

impl Masks {
    /// Allocates the memory of an empty list. The only error is lack of memory.
    pub fn new(alloc: Global) -> Result<Masks, AllocError>
        ensures { IfOk result (λ masks. masks ≡ []) }
    {
        Ok(Masks {
            sets: Vec::with_capacity(alloc, MOST_SETS)?,
            members: Vec::from_elem(alloc, 0, MOST_ROWS)?,
        })
    }

    /// Returns the number of sets, at most 65,536.
    pub fn len(&self) -> usize
        ensures len { result ≡ length self.now }
        ensures apart { AllPairs (λ s t. s ≢ t) self.now }
    {
        self.sets.len()
    }

    /// Returns the set at place `i`.
    pub fn at(&self, i: usize) -> u16
        requires { i < length self.now }
        ensures { result ≡ slice_index self.now i }
    {
        self.sets[i]
    }

    /// Returns the sets in their order.
    pub fn as_slice(&self) -> &[u16]
        ensures { result.now ≡ self.now }
    {
        &self.sets
    }

    /// Returns rows of marks on all sets of sixteen nodes. A set is marked if and only if it is in the list. The mark
    /// on set s is bit s % 64 of row s / 64.
    pub fn rows(&self) -> &[u64]
        ensures rows { length result.now ≡ 1024 }
        ensures marked { (x : ℕ) → x < most_sets → (IsSetMarked result.now x ↔ Contains self.now x) }
    {
        &self.members
    }

    /// Removes all sets from the list.
    pub fn clear(&mut self)
        ensures { self.new ≡ [] }
    {
        unmark(&mut self.members, &self.sets);
        self.sets.clear();
    }

    /// Appends the set if it isn't in the list yet. Returns whether the set was appended.
    pub fn insert(&mut self, set: u16) -> bool
        ensures { IsInserted self.old self.new set result }
    {
        if is_marked(&self.members, set) {
            return false;
        }
        self.members[usize::from(set / 64)] |= 1u64 << (set % 64);
        self.sets.push_reserved(set);
        true
    }
}
