//! The type `DegreeRoom`, which finds the degree of a rule, in memory that it allocates once.
ghost use Rattle.std.specs.Prelude.{◌≡◌, [], IfOk};
ghost use Rattle.c_structs.specs.Degrees.{IsDegreeFound};
ghost use Rattle.c_structs.specs.Reports.{rule_with};

use crate::rule_degrees::{RuleDegree, numbers_of};
use crate::table_verdicts::fault_number;
use std::alloc::{AllocError, Global};
use std::marker::Model;
use welch_index::Search;
use word_image::Rule;

/// The greatest number of letters of the two words.
const MOST_LETTERS: usize = 2 * 65_535;

/// The memory in which degrees are found, some 1 MB, which is allocated once. In contracts it is the letters of the last
/// two words.
#[derive(Drop)]
pub struct DegreeRoom {
    // The search for the words.
    search: Search,
    // The letters of the last two words, with capacity for any two.
    letters: Vec<u8>,
}

impl Model for DegreeRoom {
    ghost use Rattle.std.specs.Prelude.{ℕ, ◌≤◌, ◌*◌, List, vec_capacity};

    ghost Value = { List ℕ };

    ghost view = { λ r. r.letters.items };

    ghost invariant = { λ r. 2 * 65535 ≤ vec_capacity r.letters };
}

impl DegreeRoom {
    /// Allocates the memory of a room. The only error is lack of memory.
    pub fn new(alloc: Global) -> Result<DegreeRoom, AllocError>
        ensures { IfOk result (λ room. room ≡ []) }
    {
        Ok(DegreeRoom {
            letters: Vec::with_capacity(alloc, MOST_LETTERS)?,
            search: Search::new(alloc)?,
        })
    }

    /// Returns the degree of the rule with these states, width, offset and table, its multipliers, and the words with the
    /// fewest last and first nodes. If there is no such rule, returns the number of the first fault. The result doesn't depend on earlier ones.
    pub fn find(&mut self, states: u8, width: u8, offset: i8, table: &[u8]) -> RuleDegree
        ensures { IsDegreeFound (rule_with states width offset table.now) result self.new }
    {
        self.letters.clear();
        match Rule::new(states, width, offset, table) {
            Ok(rule) => numbers_of(&mut self.letters, &mut self.search, &rule),
            Err(fault) => RuleDegree::none(fault_number(fault)),
        }
    }

    /// Returns the letters of the last two words.
    pub fn letters(&self) -> &[u8]
        ensures { result.now ≡ self.now }
    {
        &self.letters
    }
}
