//! The type `Minimal`: the least automaton of a rule.
//!
//! Two words are in the same class if, followed by any word, both are orphans or neither is. A node is a word of m - 1
//! letters, and the last nodes of a word are the last m - 1 letters of its preimages. A word is read from a node if the
//! labels of some walk from the node spell the word. The closure of a set of nodes is the greatest set that contains it
//! and from which the same words are read. The words of a class have sets of last nodes with the same closure, so this
//! closure stands for the class.

ghost use Rattle.std.specs.Prelude.{◌≡◌, ◌+◌, ◌*◌, ◌^◌, ◌<◌, ◌≤◌, ℕ, length, slice_get, slice_index, vec_capacity, Some, IfOk};
ghost use Rattle.word_image.specs.LocalRules.{LocalRule, IsRule, node_count, most_sets};
ghost use Rattle.image_minimal.specs.ImageLanguages.{Automaton, IsLeastAutomaton};
ghost use Rattle.image_minimal.specs.Closures.{AreClosures};
ghost use Rattle.image_minimal.specs.Searches.{HasClasses};

use crate::closures::find_closures;
use crate::listed::{Listed, MOST_SETS};
use crate::subsets::Subsets;
use std::alloc::{AllocError, Global};
use std::marker::Model;
use std::mem::replace;
use word_image::Rule;

/// The least automaton of a rule: the classes of equivalent words, and the class that follows each class on each
/// letter. The classes are numbered in the order of their least words. Contracts treat the automaton as the rule, since
/// a rule has exactly one least automaton. Its memory is allocated once, and serves one rule after another.
#[derive(Debug, Drop)]
pub struct Minimal {
    // What allocated the memory.
    alloc: Global,
    // The steps between the sets of nodes of the rule.
    subsets: Subsets,
    // The closure of each set of nodes, with capacity for `MOST_SETS` closures.
    closures: Vec<u16>,
    // For each class the closure of the sets of last nodes of its words, in the order of the classes.
    classes: Listed,
}

impl Model for Minimal {
    ghost use Rattle.std.specs.Prelude.{◌≡◌, ◌^◌, ◌≤◌, vec_capacity};
    ghost use Rattle.word_image.specs.LocalRules.{LocalRule, node_count, most_sets};
    ghost use Rattle.image_minimal.specs.Searches.{HasClasses};

    ghost Value = { LocalRule };

    ghost view = { λ m. m.subsets };

    ghost invariant = { λ m. HasClasses m.subsets m.closures.items m.classes.sets × (m.classes.limit ≡ 2 ^ node_count m.subsets) × (most_sets ≤ vec_capacity m.closures) };
}

/// Computes the least automaton of this rule. The only error is lack of memory.
pub fn least(alloc: Global, rule: &Rule) -> Result<Minimal, AllocError>
    ensures rule { IfOk result (λ minimal. minimal ≡ rule.now) }
    ensures some { IfOk result (λ _. (a : Automaton) × IsLeastAutomaton rule.now a) }
{
    Minimal::of(alloc, Subsets::of(alloc, rule)?)
}

/// Law: a rule has at most one least automaton.
pub fn one_least_automaton()
    ensures { (r : LocalRule) (a b : Automaton) → IsRule r → IsLeastAutomaton r a → IsLeastAutomaton r b → a ≡ b }
{}

/// Law: the least automaton of a rule has at most 65,536 classes.
pub fn few_classes()
    ensures { (r : LocalRule) (a : Automaton) → IsRule r → IsLeastAutomaton r a → a.classes ≤ most_sets }
{}

impl Minimal {
    /// Allocates the memory of a least automaton. It is the one of a rule that gives 0 for all windows. The only error
    /// is lack of memory.
    pub fn new(alloc: Global) -> Result<Minimal, AllocError> {
        Minimal::of(alloc, Subsets::new(alloc)?)
    }

    /// Computes the least automaton of another rule, in the memory of this one.
    pub fn set_rule(&mut self, rule: &Rule)
        ensures { self.new ≡ rule.now }
    {
        self.subsets.set_rule(rule);
        find(&self.subsets, &mut self.closures, &mut self.classes);
    }

    /// Computes the least automaton of the rule that has these sets of nodes.
    fn of(alloc: Global, subsets: Subsets) -> Result<Minimal, AllocError>
        ensures rule { IfOk result (λ minimal. minimal ≡ subsets) }
        ensures some { IfOk result (λ _. (a : Automaton) × IsLeastAutomaton subsets a) }
    {
        let mut closures = Vec::with_capacity(alloc, MOST_SETS)?;
        let mut classes = Listed::new(alloc)?;
        find(&subsets, &mut closures, &mut classes);
        Ok(Minimal {
            alloc,
            subsets,
            closures,
            classes,
        })
    }

    /// Returns the number of classes, from 1 to 65,536. The contract also states that the rule has a least automaton.
    pub fn len(&self) -> u32
        ensures automaton { (a : Automaton) × IsLeastAutomaton self.now a }
        ensures len { (a : Automaton) → IsLeastAutomaton self.now a → result ≡ a.classes }
        ensures some { 1 ≤ result }
        ensures most { result ≤ most_sets }
    {
        self.classes.len()
    }

    /// Writes the class that follows each class on each letter, in place of the numbers of `rows`, which must have
    /// capacity for `len` times `k` numbers. The list begins with the classes that follow class 0, one for each letter.
    /// Then come the classes that follow class 1, and so on.
    pub fn write_rows(&self, rows: &mut Vec<u16>)
        requires { (a : Automaton) → IsLeastAutomaton self.now a → a.classes * a.states ≤ vec_capacity rows.old }
        ensures rows { (a : Automaton) → IsLeastAutomaton self.now a → rows.new.items ≡ a.next }
        ensures capacity { vec_capacity rows.new ≡ vec_capacity rows.old }
    {
        // The list is taken out of `rows`, so that the loop reads and writes less for each letter.
        let mut list = replace(rows, Vec::new(self.alloc));
        list.clear();
        // This is borrowed once, so that the loop reads one pointer less for each letter.
        let closures: &[u16] = &self.closures;
        for class in 0..self.classes.len() {
            let set = self.classes.at(class);
            let steps = self.subsets.steps(set);
            for letter in 0..self.subsets.k() {
                let after = steps[letter as usize];
                list.push_reserved(class_of(closures, &self.classes, after));
            }
        }
        *rows = list;
    }

    /// Returns the class that follows class `i` on the letter `a`: if a word is in class `i`, the word followed by `a`
    /// is in the result.
    pub fn next(&self, i: u32, a: u8) -> u32
        requires class { (m : Automaton) → IsLeastAutomaton self.now m → i < m.classes }
        requires letter { a < self.now.states }
        ensures { (m : Automaton) → IsLeastAutomaton self.now m → result ≡ slice_index m.next (i * m.states + a) }
    {
        self.subsets.graph().rule().keeps_limits();
        let set = self.classes.at(i);
        let steps = self.subsets.steps(set);
        let after = steps[a as usize];
        u32::from(class_of(&self.closures, &self.classes, after))
    }

    /// Returns the number of the class of the orphans, or None if the rule is surjective.
    pub fn dead(&self) -> Option<u32>
        ensures { (m : Automaton) → IsLeastAutomaton self.now m → result ≡ m.dead }
    {
        match self.classes.place(0) {
            None => None,
            Some(place) => Some(u32::from(place)),
        }
    }

    /// Returns the number of states k of the rule.
    pub fn k(&self) -> u8
        ensures states { result ≡ self.now.states }
        ensures rule { IsRule self.now }
    {
        self.subsets.k()
    }
}

/// Returns the number of the class for a set of last nodes. This is the class whose closure is the closure of the set.
fn class_of(closures: &[u16], classes: &Listed, set: u16) -> u16
    requires set { set < length closures.now }
    requires limit { slice_index closures.now set < classes.now.limit }
    requires class { (j : ℕ) × (slice_get classes.now.sets j ≡ Some (slice_index closures.now set)) }
    ensures { (j : ℕ) → slice_get classes.now.sets j ≡ Some (slice_index closures.now set) → result ≡ j }
{
    let class = classes.place(closures[usize::from(set)]);
    class.unwrap()
}

/// Finds the closure of each set of nodes, and then the classes. Before it finds the classes, their list has the unread
/// sets.
fn find(subsets: &Subsets, closures: &mut Vec<u16>, classes: &mut Listed)
    requires { most_sets ≤ vec_capacity closures.old }
    ensures classes { HasClasses subsets.now closures.new.items classes.new.sets }
    ensures limit { classes.new.limit ≡ 2 ^ node_count subsets.now }
    ensures capacity { most_sets ≤ vec_capacity closures.new }
{
    find_closures(subsets.graph(), classes, closures);
    search(subsets, closures, classes);
}

/// Lists the closures that stand for the classes, in the order of the classes. Finds them breadth first, starting with
/// the set of all nodes.
fn search(subsets: &Subsets, closures: &[u16], classes: &mut Listed)
    requires { AreClosures subsets.now closures.now }
    ensures classes { HasClasses subsets.now closures.now classes.new.sets }
    ensures limit { classes.new.limit ≡ 2 ^ node_count subsets.now }
{
    classes.clear(subsets.count());
    classes.insert(subsets.full());
    let mut place = 0;
    while place < classes.len() {
        let set = classes.at(place);
        let steps = subsets.steps(set);
        for letter in 0..subsets.k() {
            let after = steps[letter as usize];
            classes.insert(closures[usize::from(after)]);
        }
        place += 1;
    }
}
