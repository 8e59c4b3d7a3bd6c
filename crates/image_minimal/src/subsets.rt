//! The type `Subsets`: the sets of nodes of a rule, and the steps between them. A step on a letter leads from a set to
//! the ends of all edges that have this label and begin at a node of the set.

ghost use Rattle.std.specs.Prelude.{◌≡◌, ◌^◌, ◌<◌, ◌≤◌, ℕ, slice_index, IfOk};
ghost use Rattle.word_image.specs.LocalRules.{IsRule, node_count, most_sets};
ghost use Rattle.word_image.specs.Graphs.{full_set};
ghost use Rattle.word_image.specs.Edges.{IsStep};

use debruijn::Graph;
use image_subsets::StepTables;
use std::alloc::{AllocError, Global};
use std::marker::Model;
use word_image::{MOST_STATES, Rule};

/// The sets of nodes of a rule and their steps, which are the subset automaton of the rule. Contracts treat a value of
/// this type as the rule.
#[derive(Debug, Drop)]
pub struct Subsets {
    graph: Graph,
    // The tables from which the steps of each set are read.
    tables: StepTables,
}

impl Model for Subsets {
    ghost use Rattle.word_image.specs.LocalRules.{LocalRule};
    ghost use Rattle.image_subsets.specs.StepTables.{AreTables};

    ghost Value = { LocalRule };

    ghost view = { λ s. s.graph };

    ghost invariant = { λ s. AreTables s.graph s.tables };
}

impl Subsets {
    /// Allocates the memory of a subset automaton. It is the one of a rule that gives 0 for all windows.
    pub fn new(alloc: Global) -> Result<Subsets, AllocError> {
        Subsets::of(alloc, &Rule::from_fn(2, 2, 0, |_| 0))
    }

    /// Makes the subset automaton of this rule.
    pub fn of(alloc: Global, rule: &Rule) -> Result<Subsets, AllocError>
        ensures { IfOk result (λ subsets. subsets ≡ rule.now) }
    {
        let graph = Graph::of(rule);
        let mut tables = StepTables::new(alloc)?;
        tables.fill(&graph);
        Ok(Subsets { graph, tables })
    }

    /// Makes this the subset automaton of another rule.
    pub fn set_rule(&mut self, rule: &Rule)
        ensures { self.new ≡ rule.now }
    {
        self.graph = Graph::of(rule);
        self.tables.fill(&self.graph);
    }

    /// Returns the number of states k.
    pub fn k(&self) -> u8
        ensures states { result ≡ self.now.states }
        ensures rule { IsRule self.now }
    {
        self.graph.k()
    }

    /// Returns the de Bruijn graph of the rule.
    pub fn graph(&self) -> &Graph
        ensures { result.now ≡ self.now }
    {
        &self.graph
    }

    /// Returns the number of sets of nodes, which is 2 to the power of the number of nodes.
    pub fn count(&self) -> u32
        ensures count { result ≡ 2 ^ node_count self.now }
        ensures most { result ≤ most_sets }
        ensures rule { IsRule self.now }
    {
        1u32 << self.graph.nodes()
    }

    /// Returns the set of all nodes.
    pub fn full(&self) -> u16
        ensures set { result ≡ full_set self.now }
        ensures rule { IsRule self.now }
    {
        self.graph.full()
    }

    /// Returns the step of a set on each letter, in the order of the letters: the set to which the edges with this
    /// label lead.
    pub fn steps(&self, set: u16) -> [u16; MOST_STATES]
        requires { set < 2 ^ node_count self.now }
        ensures { (a : ℕ) → a < self.now.states → IsStep self.now set a (slice_index result a) }
    {
        self.tables.steps(set)
    }
}
