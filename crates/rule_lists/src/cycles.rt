//! Cycles of pairs of different nodes: walks that return to the pair at which they begin. A step of a walk leads from a
//! pair to another pair along two windows whose known letters are equal. The letters of the table that a search has
//! already filled are called known.
use crate::edges::{Edges, bit, first_node};
use crate::letters::FixedLetters;
use crate::reach::Links;
use word_image::{MOST_NODES, MOST_PAIRS};

/// A number of steps that no search reaches. There are at most 120 pairs of different nodes, and at most 256 pairs can
/// come after each of them.
const MOST_TURNS: u16 = 40_000;

/// A pair on the walk of a depth-first search, and the pairs after it that haven't been tried.
#[derive(Clone, Copy)]
struct Stop {
    /// The two nodes of the pair.
    pair: (u8, u8),
    /// The least letter at the first node that hasn't been tried yet.
    letter: u8,
    /// The first node of the pairs to which the last tried letter leads.
    to: u8,
    /// The second nodes of the pairs to which the last tried letter leads. Only pairs that haven't been tried count.
    rest: u16,
}

/// A depth-first search for a cycle of pairs.
#[derive(Drop)]
pub(crate) struct Cycles {
    /// For each pair of the walk that closed the last cycle, the number of the next pair.
    pub(crate) after: Links,
    /// The pairs of the walk, in their order.
    stops: [Stop; MOST_PAIRS],
    /// The number of pairs of the walk.
    depth: u8,
    /// For each node the set of nodes with which it forms a pair of the walk.
    open: [u16; MOST_NODES],
    /// For each node the set of nodes with which it forms a finished pair. All next pairs after a finished pair have
    /// been tried.
    done: [u16; MOST_NODES],
}

impl Cycles {
    /// Makes a search without a walk.
    pub(crate) fn new() -> Cycles {
        let stop = Stop {
            pair: (0, 0),
            letter: 0,
            to: 0,
            rest: 0,
        };
        Cycles {
            after: [0; MOST_PAIRS],
            stops: [stop; MOST_PAIRS],
            depth: 0,
            open: [0; MOST_NODES],
            done: [0; MOST_NODES],
        }
    }

    /// Searches for a cycle on the walks that begin at a pair of `node` with a node of `others`. Returns the number of
    /// a pair on the cycle, or None if there is no cycle.
    pub(crate) fn find(
        &mut self,
        edges: &Edges,
        letters: &FixedLetters,
        node: u8,
        others: u16,
    ) -> Option<u8> {
        self.depth = 0;
        self.open = [0; MOST_NODES];
        self.done = [0; MOST_NODES];
        for _ in 0..MOST_NODES {
            let left = others & !bit(node) & !self.done[usize::from(node % 16)];
            if left == 0 {
                break;
            }
            self.enter((node, first_node(left)));
            if let Some(pair) = self.walk(edges, letters) {
                return Some(pair);
            }
        }
        None
    }

    /// Continues the walk, and goes back if it can't continue, until it closes a cycle. Returns the number of a pair on
    /// the cycle, or None if no walk closes a cycle.
    fn walk(&mut self, edges: &Edges, letters: &FixedLetters) -> Option<u8> {
        for _ in 0..MOST_TURNS {
            if self.depth == 0 {
                break;
            }
            let top = self.depth - 1;
            if self.stops[usize::from(top)].rest == 0 && self.turn(edges, letters, top) {
                return Some(self.closed(edges, top));
            }
            let stop = self.stops[usize::from(top)];
            if stop.rest == 0 {
                self.leave(top, stop);
            } else {
                self.go_on(top, stop);
            }
        }
        None
    }

    /// Adds a pair at the end of the walk.
    fn enter(&mut self, pair: (u8, u8)) {
        self.stops[usize::from(self.depth)] = Stop {
            pair,
            letter: 0,
            to: 0,
            rest: 0,
        };
        self.depth = self.depth.wrapping_add(1);
        self.open[usize::from(pair.0 % 16)] |= bit(pair.1);
        self.open[usize::from(pair.1 % 16)] |= bit(pair.0);
    }

    /// Takes the next pair to which the last tried letter leads from the last pair of the walk. Adds it to the walk,
    /// unless it is finished: all pairs after it have been tried before.
    fn go_on(&mut self, top: u8, stop: Stop) {
        let end = first_node(stop.rest);
        self.stops[usize::from(top)].rest = stop.rest & !bit(end);
        if self.done[usize::from(stop.to % 16)] & bit(end) == 0 {
            self.enter((stop.to, end));
        }
    }

    /// Removes the last pair from the walk, after all next pairs have been tried.
    fn leave(&mut self, top: u8, stop: Stop) {
        let (u, v) = stop.pair;
        self.depth = top;
        self.open[usize::from(u % 16)] &= !bit(v);
        self.open[usize::from(v % 16)] &= !bit(u);
        self.done[usize::from(u % 16)] |= bit(v);
        self.done[usize::from(v % 16)] |= bit(u);
    }

    /// Tries the next letters at the first node of the last pair, until a letter leads to pairs that aren't finished.
    /// Returns whether one of these pairs is on the walk already, which closes a cycle.
    fn turn(&mut self, edges: &Edges, letters: &FixedLetters, top: u8) -> bool {
        let stop = self.stops[usize::from(top)];
        for letter in stop.letter..edges.k() {
            let window = edges.window(stop.pair.0, letter);
            let label = letters[usize::from(window)];
            let to = edges.last_node(window);
            let row = usize::from(to % 16);
            let ends = edges.ends(label, stop.pair.1) & !bit(to) & !self.done[row];
            if label < edges.k() && ends != 0 {
                self.stops[usize::from(top)] = Stop {
                    pair: stop.pair,
                    letter: letter + 1,
                    to,
                    rest: ends,
                };
                return ends & self.open[row] != 0;
            }
        }
        self.stops[usize::from(top)].letter = u8::MAX;
        false
    }

    /// Stores for each pair of the walk the next pair, after a step has closed a cycle. Returns the number of the pair
    /// to which the walk has come back.
    fn closed(&mut self, edges: &Edges, top: u8) -> u8 {
        let stop = self.stops[usize::from(top)];
        let back = stop.rest & self.open[usize::from(stop.to % 16)];
        let pair = (stop.to, first_node(back));
        for place in 0..top {
            let from = self.stops[usize::from(place)].pair;
            let next = self.stops[usize::from(place + 1)].pair;
            self.link(edges, from, next);
        }
        self.link(edges, stop.pair, pair);
        edges.pair(pair.0, pair.1)
    }

    /// Stores that `next` comes after `pair` on the walk. Does so also for the two pairs with their nodes exchanged.
    fn link(&mut self, edges: &Edges, pair: (u8, u8), next: (u8, u8)) {
        let (here, turned) = (edges.pair(pair.0, pair.1), edges.pair(pair.1, pair.0));
        self.after[usize::from(here)] = edges.pair(next.0, next.1);
        self.after[usize::from(turned)] = edges.pair(next.1, next.0);
    }
}
