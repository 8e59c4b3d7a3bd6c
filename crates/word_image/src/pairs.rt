//! Pairs of nodes: their numbers, the steps between pairs, and the set of all nodes.
//!
//! A node is a word of m - 1 letters, given by its value. A pair is a pair of nodes. A step follows two edges with
//! equal labels, one from each node of the pair.

ghost use Rattle.std.specs.Prelude.{◌≡◌, ◌<◌, IfSome};
ghost use Rattle.word_image.specs.LocalRules.{IsRule, node_count};
ghost use Rattle.word_image.specs.Graphs.{full_set, first_of, second_of, pair_of, pair_count, follow_on};

use crate::local_rule::Rule;
use crate::side::Side;

impl Rule {
    /// Returns the set of all nodes. Bit u of the set stands for node u.
    pub fn all_nodes(&self) -> u16
        ensures set { result ≡ full_set self.now }
        ensures rule { IsRule self.now }
    {
        u16::MAX >> (16 - self.nodes())
    }

    /// Returns the number of pairs of nodes: N * N if there are N nodes, from 4 to 256. The pair of the nodes u and v
    /// has the number u * N + v.
    pub fn pairs(&self) -> u16
        ensures count { result ≡ pair_count self.now }
        ensures rule { IsRule self.now }
    {
        let nodes = u16::from(self.nodes());
        nodes * nodes
    }

    /// Returns the first and the second node of the pair with this number.
    pub fn nodes_of(&self, pair: u16) -> (u8, u8)
        requires { pair < pair_count self.now }
        ensures first { result.0 ≡ first_of self.now pair }
        ensures second { result.1 ≡ second_of self.now pair }
        ensures first_below { result.0 < node_count self.now }
        ensures second_below { result.1 < node_count self.now }
        ensures rule { IsRule self.now }
    {
        let nodes = u16::from(self.nodes());
        ((pair / nodes) as u8, (pair % nodes) as u8)
    }

    /// Returns the number of the pair of these nodes.
    pub fn pair_of(&self, first: u8, second: u8) -> u16
        requires first { first < node_count self.now }
        requires second { second < node_count self.now }
        ensures pair { result ≡ pair_of self.now first second }
        ensures below { result < pair_count self.now }
    {
        u16::from(first) * u16::from(self.nodes()) + u16::from(second)
    }

    /// Returns the pair that is reached from `pair` by one edge from each of its two nodes. The letter `a` chooses
    /// the edge of the first node, and `b` the edge of the second. The edges are followed forward on the right side
    /// and backward on the left. Returns None if the labels of the two edges differ.
    pub fn follow(&self, side: Side, pair: u16, a: u8, b: u8) -> Option<u16>
        requires pair { pair < pair_count self.now }
        requires first { a < self.now.states }
        requires second { b < self.now.states }
        ensures pair { result ≡ follow_on side self.now pair a b }
        ensures below { IfSome result (λ q. q < pair_count self.now) }
        ensures rule { IsRule self.now }
    {
        let (u, v) = self.nodes_of(pair);
        let (first, second) = (side.window_with(self, u, a), side.window_with(self, v, b));
        if self.at(first) != self.at(second) {
            return None;
        }
        Some(self.pair_of(side.end_node(self, first), side.end_node(self, second)))
    }
}
