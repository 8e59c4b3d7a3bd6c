//! The type `Listed`: a list of different sets of nodes in the order in which they were found, and an index to look
//! them up.

ghost use Rattle.std.specs.Prelude.{◌≡◌, ◌<◌, ◌≤◌, [], ◌∷◌, ◌++◌, Contains, length, slice_index, IfOk};
ghost use Rattle.word_image.specs.LocalRules.{most_sets};
ghost use Rattle.image_minimal.specs.Indexes.{IsInserted, IsPlaceOf};

use std::alloc::{AllocError, Global};
use std::marker::Model;

/// The greatest number of sets of nodes.
pub(crate) const MOST_SETS: usize = 65_536;

/// A list of different sets of nodes, each less than a limit. Contracts treat it as the list of the sets' numbers and the
/// limit.
#[derive(Debug, Drop)]
pub struct Listed {
    // The sets in their order, with capacity for `MOST_SETS` sets.
    sets: Vec<u16>,
    // For each set below the limit its place in the list, or None if it isn't in the list. It has capacity for
    // `MOST_SETS` entries.
    places: Vec<Option<u16>>,
}

impl Model for Listed {
    ghost use Rattle.std.specs.Prelude.{◌≤◌, length, vec_capacity};
    ghost use Rattle.word_image.specs.LocalRules.{most_sets};
    ghost use Rattle.image_minimal.specs.Indexes.{Indexed, IsExactIndex};

    ghost Value = { Indexed };

    ghost view = { λ l. record { sets = l.sets.items; limit = length l.places.items } };

    ghost invariant = { λ l. IsExactIndex l.sets.items l.places.items × (most_sets ≤ vec_capacity l.sets) × (most_sets ≤ vec_capacity l.places) };
}

impl Listed {
    /// Allocates the memory of a list, 384 KB. The list is empty, and its limit is 0. The only error is lack of memory.
    pub fn new(alloc: Global) -> Result<Listed, AllocError>
        ensures { IfOk result (λ listed. listed.sets ≡ []) }
    {
        Ok(Listed {
            sets: Vec::with_capacity(alloc, MOST_SETS)?,
            places: Vec::with_capacity(alloc, MOST_SETS)?,
        })
    }

    /// Removes all sets, and sets the limit. Keeps the memory.
    pub fn clear(&mut self, limit: u32)
        requires { limit ≤ most_sets }
        ensures sets { self.new.sets ≡ [] }
        ensures limit { self.new.limit ≡ limit }
    {
        self.sets.clear();
        self.places.clear();
        self.places.resize(limit as usize, None).unwrap();
    }

    /// Returns the number of sets, at most 65,536.
    pub fn len(&self) -> u32
        ensures len { result ≡ length self.now.sets }
        ensures most { result ≤ most_sets }
    {
        self.sets.len() as u32
    }

    /// Returns the set at place `i`.
    pub fn at(&self, i: u32) -> u16
        requires { i < length self.now.sets }
        ensures { result ≡ slice_index self.now.sets i }
    {
        self.sets[i as usize]
    }

    /// Returns the place of the set, or None if it isn't in the list.
    pub fn place(&self, set: u16) -> Option<u16>
        requires { set < self.now.limit }
        ensures { IsPlaceOf self.now.sets set result }
    {
        self.places[usize::from(set)]
    }

    /// Appends the set if it isn't in the list yet.
    pub fn insert(&mut self, set: u16)
        requires { set < self.old.limit }
        ensures sets { IsInserted self.old.sets self.new.sets set }
        ensures limit { self.new.limit ≡ self.old.limit }
    {
        if self.place(set).is_none() {
            self.append(set);
        }
    }

    /// Appends a set that isn't in the list.
    fn append(&mut self, set: u16)
        requires set { set < self.old.limit }
        requires new { ¬ Contains self.old.sets set }
        ensures sets { self.new.sets ≡ self.old.sets ++ set ∷ [] }
        ensures limit { self.new.limit ≡ self.old.limit }
    {
        let place = self.sets.len() as u16;
        self.sets.push_reserved(set);
        self.places[usize::from(set)] = Some(place);
    }
}
