//! The two sides of the line of cells, and the ends of a window on each side.

ghost use Rattle.std.specs.Prelude.{◌≡◌, ◌^◌, ◌<◌};
ghost use Rattle.word_image.specs.LocalRules.{IsRule, node_count};
ghost use Rattle.word_image.specs.Sides.{other};
ghost use Rattle.word_image.specs.Ends.{window_with, end_node, end_letter};

use crate::local_rule::Rule;

/// A side of the line of cells. Walks follow the edges of the de Bruijn graph forward on the right side, and backward
/// on the left.
#[derive(Clone, Copy, Debug, PartialEq, Eq)]
pub enum Side {
    Right,
    Left,
}

impl Side {
    /// Returns the other side.
    pub fn other(self) -> Side
        ensures { result ≡ other self }
    {
        match self {
            Side::Right => Side::Left,
            Side::Left => Side::Right,
        }
    }

    /// Returns the value of the window that consists of a node and one more letter. A node is a word of m - 1 letters.
    /// On the right side the letter follows the node, and on the left side it precedes the node.
    pub fn window_with(self, rule: &Rule, node: u8, letter: u8) -> u16
        requires node { node < node_count rule.now }
        requires letter { letter < rule.now.states }
        ensures value { result ≡ window_with self rule.now node letter }
        ensures window { result < rule.now.states ^ rule.now.width }
    {
        let (node, letter) = (u16::from(node), u16::from(letter));
        match self {
            Side::Right => node * u16::from(rule.k()) + letter,
            Side::Left => letter * u16::from(rule.nodes()) + node,
        }
    }

    /// Returns the node at the end of a window on this side: its last m - 1 letters on the right, its first m - 1
    /// letters on the left.
    pub fn end_node(self, rule: &Rule, window: u16) -> u8
        requires { window < rule.now.states ^ rule.now.width }
        ensures value { result ≡ end_node self rule.now window }
        ensures node { result < node_count rule.now }
        ensures rule { IsRule rule.now }
    {
        match self {
            Side::Right => (window % u16::from(rule.nodes())) as u8,
            Side::Left => (window / u16::from(rule.k())) as u8,
        }
    }

    /// Returns the letter at the end of a window on this side: the last one on the right, the first one on the left.
    pub fn end_letter(self, rule: &Rule, window: u16) -> u8
        requires { window < rule.now.states ^ rule.now.width }
        ensures value { result ≡ end_letter self rule.now window }
        ensures letter { result < rule.now.states }
    {
        match self {
            Side::Right => (window % u16::from(rule.k())) as u8,
            Side::Left => (window / u16::from(rule.nodes())) as u8,
        }
    }
}
