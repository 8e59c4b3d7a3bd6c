//! The Garden of Eden theorem for one rule (Moore 1962, Myhill 1963): the least erasable pair, and the pairs of nodes
//! that prove that there is none.
//!
//! An erasable pair consists of two different words of the same length with the same image, the same first m - 1
//! letters and the same last m - 1 letters. Either word can replace the other in any configuration without a change
//! of the image. A rule is surjective if and only if it has no erasable pair. Pairs of words are ordered by their
//! length, and then by the dictionary order of their pairs of letters.
//!
//! Rule 0 gives 0 everywhere, so 00000 and 00100 can replace each other. The rule that gives 1 only for the window 11
//! has the erasable pair 000 and 010. Rule 90, the sum of the two neighbours modulo 2, has none. `ca erase 0`, `ca
//! erase 2:2:0:t0001` and `ca erase 90` print this.
//!
//! Two words with the same image spell a walk of pairs of nodes in the de Bruijn graph. The marked graph has each pair
//! of nodes twice, without a mark and with it, and a step on two different letters sets the mark. An erasable pair
//! begins with the letters of a node, in both words. The other letters spell a walk in the marked graph. It leads from
//! the pair of this node with itself, without the mark, to the pair of some node with itself, with the mark. So the
//! least erasable pair is the least of these walks over all nodes, each after the letters of its first node.
//!
//! A first pair on the right consists of two different nodes that two different letters reach from the same node, along
//! edges with equal labels. A pair of nodes is reached if steps of `follow` (crate pair_graph) lead to it from a first
//! pair on the right. A pair list is a list of pairs of two different nodes. It has all first pairs on the right, and
//! each pair to which a step leads from a pair of the list.
//!
//! A rule is surjective if and only if no reached pair has two equal nodes. Then the list of the reached pairs is a
//! pair list, which proves that the rule is surjective. Under the rule that gives 1 only for the window 11, the letters
//! 0 and 1 lead from node 0 to the first pair of the nodes 0 and 1. From both of these nodes the letter 0 leads to node
//! 0, each time with the label 0: the rule isn't surjective.
//!
//! [`is_surjective`] stores the reached pairs as one set of nodes for each node. The steps from all pairs of a node u
//! on a letter a form one step of a set, on the label that a has at u. The test ends at the first pair of two equal
//! nodes. Nearly every rule that isn't surjective reaches such a pair soon.
//!
//! [`is_even`] and [`is_even_at_zeros`] only look at the table. In the table of a surjective rule all letters occur
//! equally often, and the number of words of m + 1 letters with the image 0 0 is the number of nodes. Rule 110 gives
//! 1 for five windows of eight, so it isn't surjective. Rule 232, the majority of three cells, gives 1 for four
//! windows, but six words of four letters have the image 0 0, and there are four nodes.
//!
//! If there are N = k^(m - 1) nodes, [`least_erasable`] takes time **O(N^3·k)** in operations on rows: N searches in a
//! graph of 2·N^2 states. Later searches end early. For a surjective rule it searches nothing. It searches in the memory
//! of a queue, and [`erasable`] copies the two words into memory of their own. [`reached`] takes time **O(N^2·k^2)** and
//! memory for N^2 pairs. [`is_surjective`] takes time **O(N^3·k)** at most, and no memory. The tests of a table take
//! time **O(N·k^2)** at most.
#![tactic(auto)]

mod erased;
mod even;
mod reached_pairs;
mod surjective;
mod zeros;

// The programs of this repository use these.
pub use erased::least_erasable;
pub use even::is_even;
pub use reached_pairs::reached;
pub use surjective::is_surjective;
pub use zeros::is_even_at_zeros;

// For other programs in Rattle. No program of this repository uses these.
pub use erased::{Erased, erasable};
