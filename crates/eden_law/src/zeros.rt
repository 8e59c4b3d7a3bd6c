//! The test whether as many words have the image 0 0 as there are nodes, which are the words of m - 1 letters. This is
//! true for every surjective rule.
ghost use Rattle.std.specs.Prelude.{◌≡◌, ◌==◌, ℕ, ◌+◌, ◌*◌, ◌<◌, ◌≤◌, ◌↔◌, length, slice_index, IsTrue};
ghost use Rattle.word_image.specs.LocalRules.{LocalRule, IsRule, most_nodes, most_states, most_windows};
ghost use Rattle.word_image.specs.Words.{IsSurjective};
ghost use Rattle.garden_laws.specs.ZeroPairs.{count_below, gives_zeros, zero_pairs};
ghost use Rattle.eden_law.specs.ZeroEdges.{AreZeroEdges};

use word_image::MOST_NODES;

/// Returns whether exactly `nodes` words of m + 1 letters have the image 0 0, for k states and this table. If the
/// number of these words isn't `nodes`, no rule with this table is surjective.
pub fn is_even_at_zeros(k: u8, nodes: u8, table: &[u8]) -> bool
    requires states { k ≤ most_states }
    requires nodes { nodes ≤ most_nodes }
    requires long { length table.now ≡ nodes * k }
    ensures zeros { IsTrue result ↔ (zero_pairs k table.now ≡ nodes) }
    ensures surjective { (r : LocalRule) → IsRule r → r.states ≡ k → r.table ≡ table.now → IsSurjective r → IsTrue result }
{
    let edges = zero_edges(k, nodes, table);
    let mut total = 0;
    for letter in 0..k {
        total += zeros_behind(k, nodes, table, letter, &edges);
    }
    total == u16::from(nodes)
}

/// Returns for each node the number of its edges with the label 0.
fn zero_edges(k: u8, nodes: u8, table: &[u8]) -> [u8; MOST_NODES]
    requires states { k ≤ most_states }
    requires nodes { nodes ≤ most_nodes }
    requires long { length table.now ≡ nodes * k }
    ensures { AreZeroEdges k table.now nodes result }
{
    let mut edges = [0; MOST_NODES];
    for node in 0..nodes {
        let first = usize::from(node) * usize::from(k);
        edges[usize::from(node)] = zeros_from(k, table, first);
    }
    edges
}

/// Returns how many of k letters of the table are 0: the letters that begin at the place `first`.
fn zeros_from(k: u8, table: &[u8], first: usize) -> u8
    requires states { k ≤ most_states }
    requires within { first + k ≤ length table.now }
    ensures count { result ≡ count_below (λ a. slice_index table.now (first + a) == 0) k }
    ensures few { result ≤ most_nodes }
{
    let mut count = 0;
    for letter in 0..k {
        count += u8::from(table[first + usize::from(letter)] == 0);
    }
    count
}

/// Returns the number of words of m + 1 letters that begin with this letter and have the image 0 0. `edges` has for
/// each node the number of its edges with the label 0.
fn zeros_behind(k: u8, nodes: u8, table: &[u8], letter: u8, edges: &[u8; MOST_NODES]) -> u16
    requires states { k ≤ most_states }
    requires nodes { nodes ≤ most_nodes }
    requires long { length table.now ≡ nodes * k }
    requires letter { letter < k }
    requires edges { AreZeroEdges k table.now nodes edges.now }
    ensures count { result ≡ count_below (λ v. gives_zeros k table.now (letter * nodes * k + v)) (nodes * k) }
    ensures few { result ≤ most_windows }
{
    let first = usize::from(letter) * usize::from(nodes);
    let mut total = 0;
    for node in 0..nodes {
        if table[first + usize::from(node)] == 0 {
            total += u16::from(edges[usize::from(node)]);
        }
    }
    total
}
