//! For each node, the sum of the gains along the walk to node 0, and the test whether these sums are a flux.
//!
//! A node is a word of m - 1 letters. The gain of a window is the weight of the letter that the rule gives for the
//! window, minus the weight of the window's first letter. A list with a number for each node is a flux if the gain of
//! each window is the number of its first m - 1 letters minus the number of its last m - 1 letters.
ghost use Rattle.std.specs.Prelude.{◌≡◌, ◌-◌, ◌^◌, ◌<◌, ◌↔◌, ◌≤ℤ◌, length, slice_index, IsTrue, pos, negsuc, ◌++◌, replicate};
ghost use Rattle.word_image.specs.LocalRules.{node_count, most_nodes};
ghost use Rattle.word_image.specs.Rings.{IsFlux};
ghost use Rattle.ring_laws.proofs.FluxWalks.{walk_gain, walk_gains};
ghost use Rattle.ring_laws.proofs.FluxWindows.{window_gain, FlowsAt};

use word_image::{MOST_NODES, Rule, Side, Weights};

/// Returns a number for each node: the sum of the gains along the walk from the node that reads m - 1 letters 0. Zeros
/// follow the numbers of the nodes.
pub(crate) fn walk_flows(rule: &Rule, weights: &Weights) -> [i32; MOST_NODES]
    requires { length weights.now ≡ rule.now.states }
    ensures { result ≡ walk_gains (slice_index weights.now) rule.now ++ replicate (most_nodes - node_count rule.now) (pos 0) }
{
    let mut flows = [0; MOST_NODES];
    for node in 0..rule.nodes() {
        flows[usize::from(node)] = walk_flow(rule, weights, node);
    }
    flows
}

/// Returns the sum of the gains along the walk from this node that reads m - 1 letters 0.
fn walk_flow(rule: &Rule, weights: &Weights, node: u8) -> i32
    requires letters { length weights.now ≡ rule.now.states }
    requires node { node < node_count rule.now }
    ensures { result ≡ walk_gain (slice_index weights.now) rule.now node }
{
    let mut node = node;
    let mut flow = 0;
    for _ in 1..rule.m() {
        let window = Side::Right.window_with(rule, node, 0);
        flow += window_flow(rule, weights, window);
        node = Side::Right.end_node(rule, window);
    }
    flow
}

/// Returns the gain of a window: the weight of the letter that the rule gives for the window, minus the weight of the
/// window's first letter.
fn window_flow(rule: &Rule, weights: &Weights, window: u16) -> i32
    requires letters { length weights.now ≡ rule.now.states }
    requires window { window < rule.now.states ^ rule.now.width }
    ensures gain { result ≡ window_gain (slice_index weights.now) rule.now window }
    ensures least { negsuc 254 ≤ℤ result }
    ensures most { result ≤ℤ pos 255 }
{
    i32::from(weights.at(rule.at(window)))
        - i32::from(weights.at(Side::Left.end_letter(rule, window)))
}

/// Returns whether these numbers, one for each node, are a flux of the rule.
pub(crate) fn is_flux(rule: &Rule, weights: &Weights, numbers: &[i32]) -> bool
    requires letters { length weights.now ≡ rule.now.states }
    requires nodes { length numbers.now ≡ node_count rule.now }
    ensures { IsTrue result ↔ IsFlux (slice_index weights.now) rule.now numbers.now }
{
    for window in 0..rule.size() {
        if !flows(rule, weights, numbers, window) {
            return false;
        }
    }
    true
}

/// Returns whether the gain of a window is the number of its first m - 1 letters minus the number of its last m - 1
/// letters. `numbers` has a number for each word of m - 1 letters.
fn flows(rule: &Rule, weights: &Weights, numbers: &[i32], window: u16) -> bool
    requires letters { length weights.now ≡ rule.now.states }
    requires nodes { length numbers.now ≡ node_count rule.now }
    requires window { window < rule.now.states ^ rule.now.width }
    ensures { IsTrue result ↔ FlowsAt (slice_index weights.now) rule.now numbers.now window }
{
    let first = numbers[usize::from(Side::Left.end_node(rule, window))];
    let last = numbers[usize::from(Side::Right.end_node(rule, window))];
    i64::from(window_flow(rule, weights, window)) == i64::from(first) - i64::from(last)
}

/// From each node a walk leads that reads m - 1 letters 0. Take the sum of the gains of its windows. Returns whether the
/// gain of a window is this sum for the node of its first m - 1 letters, minus this sum for the node of its last m - 1
/// letters.
pub(crate) fn walks_flow(rule: &Rule, weights: &Weights, window: u16) -> bool
    requires letters { length weights.now ≡ rule.now.states }
    requires window { window < rule.now.states ^ rule.now.width }
    ensures { IsTrue result ↔ FlowsAt (slice_index weights.now) rule.now (walk_gains (slice_index weights.now) rule.now) window }
{
    let first = walk_flow(rule, weights, Side::Left.end_node(rule, window));
    let last = walk_flow(rule, weights, Side::Right.end_node(rule, window));
    i64::from(window_flow(rule, weights, window)) == i64::from(first) - i64::from(last)
}
