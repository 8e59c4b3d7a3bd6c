//! Steps of sets of nodes by two look-ups in tables: one for the nodes 0 to 7, and one for the nodes 8 to 15. A step on
//! a letter leads from a set to the ends of all edges that have this label and begin at a node of the set.

ghost use Rattle.std.specs.Prelude.{◌≡◌, ◌+◌, ◌-◌, ◌*◌, ◌^◌, ◌<◌, ◌≤◌, ℕ, [], ◌++◌, map, length, slice_index, vec_len, vec_capacity, IfOk};
ghost use Rattle.std.specs.Int.Bits.{bit_or};
ghost use Rattle.std.specs.Simd.Lanes.{zip2};
ghost use Rattle.word_image.specs.LocalRules.{LocalRule, IsRule, node_count, most_states};
ghost use Rattle.word_image.specs.Edges.{IsEnds, IsStep};
ghost use Rattle.word_image.specs.declared.side.Side.TheVariants.{Right};
ghost use Rattle.image_subsets.specs.StepTables.{AreSteps, AreTables, HasRows};

use debruijn::Graph;
use std::alloc::{AllocError, Global};
use std::marker::Model;
use std::simd::u16x16;
use word_image::MOST_STATES;

/// The number of different sets of eight nodes.
const ROWS: usize = 256;

/// The steps of all sets of the nodes 0 to 7, and of all sets of the nodes 8 to 15. A row has the steps of one set on
/// all letters, with one lane for each letter. A set of nodes has a part in each table, and its steps are the union of
/// the two rows. `new` allocates all memory, 16 KiB.
#[derive(Debug, Drop)]
pub struct StepTables {
    // The rows for the sets of the nodes 0 to 7.
    low: Vec<u16x16>,
    // The rows for the sets of the nodes 8 to 15.
    high: Vec<u16x16>,
}

impl Model for StepTables {
    ghost use Rattle.std.specs.Prelude.{◌≤◌, vec_capacity};
    ghost use Rattle.image_subsets.specs.declared.step_tables.TheConstants.{ROWS};
    ghost use Rattle.image_subsets.specs.StepTables.{Rows};

    ghost Value = { Rows };

    ghost view = { λ t. record { low = t.low.items; high = t.high.items } };

    ghost invariant = { λ t. (ROWS ≤ vec_capacity t.low) × (ROWS ≤ vec_capacity t.high) };
}

impl StepTables {
    /// Allocates the memory of tables without rows. The only error is lack of memory.
    pub fn new(alloc: Global) -> Result<StepTables, AllocError>
        ensures { IfOk result (λ tables. tables ≡ record { low = []; high = [] }) }
    {
        Ok(StepTables {
            low: Vec::with_capacity(alloc, ROWS)?,
            high: Vec::with_capacity(alloc, ROWS)?,
        })
    }

    /// Fills the tables with the steps of all sets of this graph's nodes, in O(2^8) time.
    pub fn fill(&mut self, graph: &Graph)
        ensures { AreTables graph.now self.new }
    {
        let nodes = graph.nodes();
        fill(&mut self.low, graph, 0, nodes.min(8));
        fill(&mut self.high, graph, 8, nodes);
    }

    /// Returns the steps of a set on all letters, in the order of the letters. The tables must have been filled for the
    /// graph to which the nodes of the set belong.
    pub fn steps(&self, set: u16) -> [u16; MOST_STATES]
        requires { HasRows self.now set }
        ensures { (r : LocalRule) (a : ℕ) → AreTables r self.now → set < 2 ^ node_count r → a < r.states →
            IsStep r set a (slice_index result a) }
    {
        let low = self.low[usize::from(set & 255)];
        let high = self.high[usize::from(set >> 8)];
        (low | high).to_array()
    }
}

/// Fills the rows with the steps of all sets of the nodes from `first` to `end - 1`, which are at most eight nodes.
fn fill(rows: &mut Vec<u16x16>, graph: &Graph, first: u8, end: u8)
    requires nodes { end ≤ node_count graph.now }
    requires few { end - first ≤ 8 }
    requires room { ROWS ≤ vec_capacity rows.old }
    ensures steps { AreSteps graph.now first (end - first) rows.new.items }
    ensures capacity { vec_capacity rows.new ≡ vec_capacity rows.old }
{
    rows.clear();
    rows.push_reserved(u16x16::splat(0));
    for u in first..end {
        double(rows, ends_of(graph, u));
    }
}

/// Doubles the number of rows: appends for each row its union with `ends`.
fn double(rows: &mut Vec<u16x16>, ends: u16x16)
    requires { 2 * vec_len rows.old ≤ vec_capacity rows.old }
    ensures rows { rows.new.items ≡ rows.old.items ++ map (λ row. zip2 bit_or row ends) rows.old.items }
    ensures capacity { vec_capacity rows.new ≡ vec_capacity rows.old }
{
    for x in 0..rows.len() {
        let row = rows[x];
        rows.push_reserved(row | ends);
    }
}

/// Returns for each label the set of nodes to which edges with this label lead from node `u`. Lane a of the result is
/// for the label a.
fn ends_of(graph: &Graph, u: u8) -> u16x16
    requires { u < node_count graph.now }
    ensures rule { IsRule graph.now }
    ensures wide { length result ≡ most_states }
    ensures ends { (a : ℕ) → a < graph.now.states → IsEnds Right graph.now u a (slice_index result a) }
{
    let mut row = [0; MOST_STATES];
    for a in 0..graph.k() {
        row[usize::from(a)] = graph.ends(u, a);
    }
    u16x16::from_array(row)
}
