//! The pairs of nodes to which known letters lead from a node with itself.
//!
//! A search fills the table of a rule window by window, and the letters so far are called known. Known letters lead
//! from a pair of nodes to another pair along two windows with the same known letter. A node is a word of m - 1
//! letters.
ghost use Rattle.std.specs.Prelude.{◌<◌};

use crate::edges::{Edges, bit, first_node};
use crate::letters::FixedLetters;
use word_image::{MOST_NODES, MOST_PAIRS, Rule, Side};

/// For each pair of nodes, by its number, the number of another pair: the pair before it or after it on a walk.
pub(crate) type Links = [u8; MOST_PAIRS];

/// The number of whole numbers from 0 to 256. The number of known letters is one of these.
const MOST_LEVELS: usize = 257;

/// The pairs of nodes to which known letters lead from a node with itself, first by two different letters. They are in
/// the order in which they were found. If one more letter is known, more pairs are added at the end. If the letter is
/// removed, these pairs are removed again.
#[derive(Drop)]
pub(crate) struct Reach {
    /// The edges of the windows whose letters are known.
    pub(crate) edges: Edges,
    /// For each found pair the number of the pair from which a step first led to it.
    pub(crate) before: Links,
    /// For each node u the set of nodes v for which (u, v) or (v, u) is a found pair.
    rows: [u16; MOST_NODES],
    /// The found pairs in their order. Only one of (u, v) and (v, u) is in the list.
    found: [(u8, u8); MOST_PAIRS],
    /// The number of found pairs.
    count: u8,
    /// The number of found pairs from which the steps have been followed.
    looked: u8,
    /// `counts[n]` is the number of pairs that were found from the first n known letters.
    counts: [u8; MOST_LEVELS],
}

impl Reach {
    /// Makes the list of pairs if no letter is known: it is empty.
    pub(crate) fn of(side: Side, shape: &Rule) -> Reach {
        Reach {
            edges: Edges::of(side, shape),
            before: [0; MOST_PAIRS],
            rows: [0; MOST_NODES],
            found: [(0, 0); MOST_PAIRS],
            count: 0,
            looked: 0,
            counts: [0; MOST_LEVELS],
        }
    }

    /// Stores how many pairs were found from the letters at the first n windows of the order.
    pub(crate) fn mark_level(&mut self, n: u16)
        requires { n < 257 }
    {
        self.counts[usize::from(n)] = self.count;
    }

    /// Keeps only the pairs that were found when only the letters at the first n windows of the order were known.
    /// Removes all later pairs.
    pub(crate) fn go_back(&mut self, n: u16)
        requires { n < 257 }
    {
        let kept = self.counts[usize::from(n)];
        for place in kept..self.count {
            let (u, v) = self.found[usize::from(place)];
            self.rows[usize::from(u % 16)] &= !bit(v);
            self.rows[usize::from(v % 16)] &= !bit(u);
        }
        self.count = kept;
    }

    /// Returns the set of the nodes v such that the pair of this node and v has been found, and of the node itself.
    pub(crate) fn partners(&self, node: u8) -> u16 {
        self.rows[usize::from(node % 16)] | bit(node)
    }

    /// Adds the edge of a window with this label, and the pairs to which the edge leads. Returns the number of a pair
    /// of two equal nodes if such a pair is reached, and None otherwise.
    pub(crate) fn add(&mut self, letters: &FixedLetters, window: u8, label: u8) -> Option<u8> {
        self.edges.add(window, label);
        self.looked = self.count;
        let (from, to) = (self.edges.first_node(window), self.edges.last_node(window));
        let mut rest = self.partners(from);
        for _ in 0..MOST_NODES {
            if rest == 0 {
                break;
            }
            let node = first_node(rest);
            rest &= rest - 1;
            let own = if node == from { bit(to) } else { 0 };
            let ends = self.edges.ends(label, node) & !own;
            if self.join((from, node), to, ends) {
                return Some(self.edges.pair(to, to));
            }
        }
        self.spread(letters)
    }

    /// Follows the steps from all found pairs whose steps haven't been followed, and adds the pairs that they reach.
    /// Returns the number of a pair of two equal nodes if such a pair is reached, and None otherwise.
    fn spread(&mut self, letters: &FixedLetters) -> Option<u8> {
        for _ in 0..MOST_PAIRS {
            if self.looked == self.count {
                break;
            }
            let pair = self.found[usize::from(self.looked)];
            self.looked = self.looked.wrapping_add(1);
            if let Some(found) = self.spread_from(letters, pair) {
                return Some(found);
            }
        }
        None
    }

    /// Follows the steps from a pair, and adds the pairs that they reach. Returns the number of a pair of two equal
    /// nodes if such a pair is reached, and None otherwise.
    fn spread_from(&mut self, letters: &FixedLetters, pair: (u8, u8)) -> Option<u8> {
        for letter in 0..self.edges.k() {
            let window = self.edges.window(pair.0, letter);
            let label = letters[usize::from(window)];
            if label < self.edges.k() {
                let to = self.edges.last_node(window);
                let ends = self.edges.ends(label, pair.1);
                if self.join(pair, to, ends) {
                    return Some(self.edges.pair(to, to));
                }
            }
        }
        None
    }

    /// Adds the pairs of the node `to` with the nodes of `ends`. Steps lead from `pair` to these pairs. Returns whether
    /// `to` is in `ends`: then a step leads to a pair of two equal nodes.
    fn join(&mut self, pair: (u8, u8), to: u8, ends: u16) -> bool {
        let mut rest = ends & !self.rows[usize::from(to % 16)];
        for _ in 0..MOST_NODES {
            if rest == 0 {
                break;
            }
            let end = first_node(rest);
            rest &= rest - 1;
            self.link(pair, to, end);
        }
        ends & bit(to) != 0
    }

    /// Adds the pair of the nodes `to` and `end`, to which a step leads from `pair`.
    fn link(&mut self, pair: (u8, u8), to: u8, end: u8) {
        self.rows[usize::from(to % 16)] |= bit(end);
        self.rows[usize::from(end % 16)] |= bit(to);
        let (here, turned) = (self.edges.pair(to, end), self.edges.pair(end, to));
        self.before[usize::from(here)] = self.edges.pair(pair.0, pair.1);
        self.before[usize::from(turned)] = self.edges.pair(pair.1, pair.0);
        self.found[usize::from(self.count)] = (to, end);
        self.count = self.count.wrapping_add(1);
    }
}
