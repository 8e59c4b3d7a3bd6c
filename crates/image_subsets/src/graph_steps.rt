//! The set of all nodes, and steps from the set of a word to the sets of the words that are one letter longer. The set
//! of a word consists of the last m - 1 letters of each of its preimages.

ghost use Rattle.std.specs.Prelude.{◌≡◌, ◌<◌, ℕ, List, [], ◌∷◌, ◌++◌};
ghost use Rattle.word_image.specs.LocalRules.{IsRule};
ghost use Rattle.word_image.specs.Graphs.{full_set};
ghost use Rattle.word_image.specs.Ranks.{IsLastSet};
ghost use Rattle.word_image.specs.Edges.{IsStep};

use debruijn::Graph;

/// Returns the set of all nodes, which is the set of the empty word. Bit u stands for node u.
pub fn full(graph: &Graph) -> u16
    ensures set { result ≡ full_set graph.now }
    ensures rule { IsRule graph.now }
{
    graph.full()
}

/// Returns the nodes to which edges with the label `a` lead from the nodes of `set`. If `set` is the set of a word,
/// the result is the set of this word followed by `a`.
pub fn step(graph: &Graph, set: u16, a: u8) -> u16
    requires { a < graph.now.states }
    ensures step { IsStep graph.now set a result }
    ensures word { (w : List ℕ) → IsLastSet graph.now w set → IsLastSet graph.now (w ++ a ∷ []) result }
{
    graph.step(set, a)
}
