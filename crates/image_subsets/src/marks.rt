//! Marks on the sets that contain another set of a family. A family is a list of sets of nodes. A set is a number below
//! 2^16, whose bits are its nodes. The mark on set s is bit s % 64 of row s / 64.

ghost use Rattle.std.specs.Prelude.{◌≡◌, ◌*◌, ◌^◌, ◌<◌, ◌≤◌, ◌↔◌, ◌⊎◌, ℕ, List, [], length, slice_index, vec_capacity, replicate, IsTrue, IfOk};
ghost use Rattle.word_image.specs.LocalRules.{most_nodes};
ghost use Rattle.image_subsets.specs.Marks.{IsSetMarked, HoldsSmaller, AreListed, AreAbove, AreBeyond};

use crate::masks::Masks;
use crate::rows::{MOST_ROWS, ROW, is_marked, spread, spread_from};
use std::alloc::{AllocError, Global};
use std::marker::Model;

/// A mark on each set that contains another set of a family. Contracts treat a value of this type as the list of its
/// rows, which have 64 marks each. `new` allocates all memory.
#[derive(Debug, Drop)]
pub(crate) struct Marks {
    // A mark on each set that contains a set of the family. Each set of the family contains itself.
    above: Vec<u64>,
    // A mark on each set that contains a set of the family other than itself.
    beyond: Vec<u64>,
}

impl Model for Marks {
    ghost use Rattle.std.specs.Prelude.{◌≤◌, List, ℕ, vec_capacity};
    ghost use Rattle.image_subsets.specs.declared.rows.TheConstants.{MOST_ROWS};

    ghost Value = { List ℕ };

    ghost view = { λ m. m.beyond.items };

    ghost invariant = { λ m. (MOST_ROWS ≤ vec_capacity m.above) × (MOST_ROWS ≤ vec_capacity m.beyond) };
}

impl Marks {
    /// Allocates the memory of the marks. No set is marked yet. The only error is lack of memory.
    pub fn new(alloc: Global) -> Result<Marks, AllocError>
        ensures { IfOk result (λ marks. marks ≡ []) }
    {
        Ok(Marks {
            above: Vec::with_capacity(alloc, MOST_ROWS)?,
            beyond: Vec::with_capacity(alloc, MOST_ROWS)?,
        })
    }

    /// Removes all earlier marks. Then marks each set of the nodes below `n` that contains a set of the list `sets`
    /// other than itself. Takes O(n 2^n) time.
    pub fn mark(&mut self, sets: &Masks, n: u8)
        requires nodes { n ≤ most_nodes }
        requires sets { (i : ℕ) → i < length sets.now → slice_index sets.now i < 2 ^ n }
        ensures room { 2 ^ n ≤ 64 * length self.new }
        ensures marks { AreBeyond sets.now n self.new }
    {
        let count = ((1usize << n) + ROW - 1) / ROW;
        copy(&mut self.above, sets.rows(), count);
        blank(&mut self.beyond, count);
        mark_above(&mut self.above, n);
        mark_beyond(&mut self.beyond, &self.above, n);
    }

    /// Returns whether a set is marked. A marked set contains another set of the family.
    pub fn has(&self, set: u16) -> bool
        requires { set < 64 * length self.now }
        ensures { IsTrue result ↔ IsSetMarked self.now set }
    {
        is_marked(&self.beyond, set)
    }
}

/// Replaces the rows by copies of the first `count` rows of `others`.
fn copy(rows: &mut Vec<u64>, others: &[u64], count: usize)
    requires count { count ≤ length others.now }
    requires most { count ≤ 1024 }
    requires room { MOST_ROWS ≤ vec_capacity rows.old }
    ensures rows { (i : ℕ) → i < count → slice_index rows.new.items i ≡ slice_index others.now i }
    ensures long { length rows.new.items ≡ count }
    ensures room { MOST_ROWS ≤ vec_capacity rows.new }
{
    rows.clear();
    for i in 0..count {
        rows.push_reserved(others[i]);
    }
}

/// Replaces the rows by `count` rows without marks.
fn blank(rows: &mut Vec<u64>, count: usize)
    requires most { count ≤ 1024 }
    requires room { MOST_ROWS ≤ vec_capacity rows.old }
    ensures rows { rows.new.items ≡ replicate count 0 }
    ensures room { MOST_ROWS ≤ vec_capacity rows.new }
{
    rows.clear();
    for _row in 0..count {
        rows.push_reserved(0);
    }
}

/// Marks each set of the nodes below `n` that contains a marked set.
fn mark_above(rows: &mut [u64], n: u8)
    requires nodes { n ≤ most_nodes }
    requires most { length rows.old ≤ 1024 }
    requires room { 2 ^ n ≤ 64 * length rows.old }
    ensures { (sets : List ℕ) → AreListed sets n rows.old → AreAbove sets n rows.new }
{
    for u in 0..n {
        spread(rows, u);
    }
}

/// Marks a set if it has a node below `n` and if the set without this node is marked in `others`.
fn mark_beyond(rows: &mut [u64], others: &[u64], n: u8)
    requires nodes { n ≤ most_nodes }
    requires most { length others.now ≤ 1024 }
    requires same { length rows.old ≡ length others.now }
    ensures { (x : ℕ) → x < 64 * length others.now → (IsSetMarked rows.new x ↔ (IsSetMarked rows.old x ⊎ HoldsSmaller others.now n x)) }
{
    for u in 0..n {
        spread_from(rows, others, u);
    }
}
