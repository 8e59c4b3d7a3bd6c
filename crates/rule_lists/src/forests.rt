//! Finds what fixed letters say about the flux of a conserving rule.
//!
//! A node is a word of m - 1 letters. A flux has a number for each node. The letter for a window minus the window's
//! first letter is the number of its first node minus the number of its last node. So if the letter for a window is
//! fixed, the difference of the numbers of its two nodes is known. The window then joins its two nodes to a tree.
ghost use Rattle.std.specs.Prelude.{◌≡◌, ◌+◌, ◌*◌, ◌^◌, ◌<◌, ◌≤◌, ℕ, ℤ, List, slice_index};
ghost use Rattle.word_image.specs.LocalRules.{node_count, most_nodes, most_windows};
ghost use Rattle.rule_lists.specs.Forests.{AreKnown, AreLevels, AreUpTo, GainsWith, IsMoved};

use crate::letters::FixedLetters;
use word_image::{MOST_NODES, Rule, Side};

/// Trees of nodes, with a level for each node. The levels of two nodes of the same tree have a known difference. The
/// numbers of these two nodes have the same difference in each flux of each conserving rule with the fixed letters.
#[derive(Clone, Copy, Debug)]
pub(crate) struct Forest {
    /// For each node the number of its tree.
    pub(crate) trees: [u8; MOST_NODES],
    /// For each node its level in its tree.
    pub(crate) levels: [u32; MOST_NODES],
}

/// The most by which joining two trees may raise a level. No level reaches half of this number, since there are at
/// most 16 nodes and 16 letters.
const MOST_RISE: u32 = 1 << 20;

/// Returns the forest of the fixed letters: each window with a fixed letter has joined the trees of its two nodes.
pub(crate) fn forest_of(shape: &Rule, letters: &FixedLetters) -> Forest
    ensures known { AreKnown shape.now letters.now result.trees result.levels }
    ensures small { AreUpTo (most_windows * 1048576) result.levels }
{
    let mut forest = single_nodes();
    for window in 0..shape.size() {
        forest = with_letter(shape, letters, window, &forest);
    }
    forest
}

/// Returns the forest in which each node is a tree of its own, with level 0.
fn single_nodes() -> Forest
    ensures trees { (v : ℕ) → v < most_nodes → slice_index result.trees v ≡ v }
    ensures levels { AreUpTo 0 result.levels }
{
    let mut trees = [0; MOST_NODES];
    for node in 0..MOST_NODES {
        trees[node] = node as u8;
    }
    Forest {
        trees,
        levels: [0; MOST_NODES],
    }
}

/// Joins the trees of the two nodes of this window, if its letter is fixed, and returns the new forest. If its letter
/// isn't fixed, returns the same forest.
fn with_letter(shape: &Rule, letters: &FixedLetters, window: u16, forest: &Forest) -> Forest
    requires window { window < shape.now.states ^ shape.now.width }
    requires known { AreKnown shape.now letters.now forest.now.trees forest.now.levels }
    requires small { AreUpTo (window * 1048576) forest.now.levels }
    ensures known { AreKnown shape.now letters.now result.trees result.levels }
    ensures small { AreUpTo ((window + 1) * 1048576) result.levels }
{
    let k = shape.k();
    let letter = letters[usize::from(window)];
    if letter >= k {
        return *forest;
    }
    with_window(shape, window, letter, forest)
}

/// Joins the trees of the two nodes of this window, and returns the new forest. `letter` is the letter for the window.
/// In a flux, `letter` minus the first letter of the window is the number of the first node minus the number of the
/// last node.
fn with_window(shape: &Rule, window: u16, letter: u8, forest: &Forest) -> Forest
    requires window { window < shape.now.states ^ shape.now.width }
    requires small { AreUpTo (window * 1048576) forest.now.levels }
    ensures levels { (phi : List ℤ) → GainsWith shape.now window letter phi → AreLevels (node_count shape.now) forest.now.trees forest.now.levels phi → AreLevels (node_count shape.now) result.trees result.levels phi }
    ensures small { AreUpTo ((window + 1) * 1048576) result.levels }
{
    let first = usize::from(Side::Left.end_node(shape, window));
    let last = usize::from(Side::Right.end_node(shape, window));
    let kept = forest.trees[first];
    let gone = forest.trees[last];
    let rise = forest.levels[last] + u32::from(letter);
    let other = forest.levels[first] + u32::from(Side::Left.end_letter(shape, window));
    if kept == gone {
        return *forest;
    }
    if rise > MOST_RISE {
        return *forest;
    }
    if other > MOST_RISE {
        return *forest;
    }
    joined(forest, kept, rise, gone, other)
}

/// Joins the tree `gone` to the tree `kept`, and returns the new forest. The levels of `kept` grow by `rise`, and the
/// levels of `gone` grow by `other`.
fn joined(forest: &Forest, kept: u8, rise: u32, gone: u8, other: u32) -> Forest
    requires levels { (v : ℕ) → v < most_nodes → slice_index forest.now.levels v < 2 ^ 31 }
    requires first { rise < 2 ^ 31 }
    requires second { other < 2 ^ 31 }
    ensures { (v : ℕ) → v < most_nodes → IsMoved kept rise gone other (slice_index forest.now.trees v) (slice_index forest.now.levels v) (slice_index result.trees v) (slice_index result.levels v) }
{
    let mut trees = [0; MOST_NODES];
    let mut levels = [0; MOST_NODES];
    for node in 0..MOST_NODES {
        let (tree, level) = moved(
            forest.trees[node],
            forest.levels[node],
            kept,
            rise,
            gone,
            other,
        );
        trees[node] = tree;
        levels[node] = level;
    }
    Forest { trees, levels }
}

/// Returns the tree and the level of a node after the tree `gone` has been joined to the tree `kept`. Before that the
/// node was in `tree` and had the level `level`.
fn moved(tree: u8, level: u32, kept: u8, rise: u32, gone: u8, other: u32) -> (u8, u32)
    requires level { level < 2 ^ 31 }
    requires first { rise < 2 ^ 31 }
    requires second { other < 2 ^ 31 }
    ensures { IsMoved kept rise gone other tree level result.0 result.1 }
{
    if tree == kept {
        return (kept, level + rise);
    }
    if tree == gone {
        return (kept, level + other);
    }
    (tree, level)
}
