//! Functions that compute the unread sets, and the closure of each set of nodes.
//!
//! A word is read from a node if the labels of some walk from the node spell the word. An unread set consists of all
//! nodes from which some word isn't read. The closure of a set of nodes is the intersection of all unread sets that
//! contain it.

ghost use Rattle.std.specs.Prelude.{◌≡◌, ◌+◌, ◌^◌, ◌<◌, ◌≤◌, replicate, vec_capacity};
ghost use Rattle.word_image.specs.LocalRules.{node_count, most_sets};
ghost use Rattle.word_image.specs.Graphs.{full_set};
ghost use Rattle.image_minimal.specs.Closures.{IsBack, AreClosures, ArePartClosures};
ghost use Rattle.image_minimal.specs.Searches.{AreUnreadSets};

use crate::listed::Listed;
use debruijn::Graph;

/// Fills `closures` with the closure of each set of nodes, in the order of the numbers of the sets. Lists the unread
/// sets in `unread`, in place of what was there.
pub fn find_closures(graph: &Graph, unread: &mut Listed, closures: &mut Vec<u16>)
    requires { most_sets ≤ vec_capacity closures.old }
    ensures closures { AreClosures graph.now closures.new.items }
    ensures capacity { most_sets ≤ vec_capacity closures.new }
    ensures limit { unread.new.limit ≡ 2 ^ node_count graph.now }
{
    find_unread(graph, unread);
    closures.clear();
    let all = graph.full();
    closures.resize(usize::from(all) + 1, all).unwrap();
    write_closures(graph, unread, closures);
}

/// Writes the closure of each set of nodes, given the list of the unread sets. First an unread set has itself, and any
/// other set has all nodes. Then the nodes are taken into account one by one.
fn write_closures(graph: &Graph, unread: &Listed, closures: &mut [u16])
    requires unread { AreUnreadSets graph.now unread.now.sets }
    requires limit { unread.now.limit ≡ 2 ^ node_count graph.now }
    requires full { closures.old ≡ replicate (2 ^ node_count graph.now) (full_set graph.now) }
    ensures { AreClosures graph.now closures.new }
{
    write_starts(graph, unread, closures);
    if graph.nodes() < 4 {
        share_from(graph, closures, 0);
    } else {
        share_four(graph, closures);
        share_from(graph, closures, 4);
    }
}

/// Gives each unread set itself. All other sets have all nodes.
fn write_starts(graph: &Graph, unread: &Listed, closures: &mut [u16])
    requires unread { AreUnreadSets graph.now unread.now.sets }
    requires limit { unread.now.limit ≡ 2 ^ node_count graph.now }
    requires full { closures.old ≡ replicate (2 ^ node_count graph.now) (full_set graph.now) }
    ensures { ArePartClosures graph.now 0 0 closures.new }
{
    for place in 0..unread.len() {
        let set = unread.at(place);
        closures[usize::from(set)] = set;
    }
}

/// Takes the nodes from `first` on into account.
fn share_from(graph: &Graph, closures: &mut [u16], first: u8)
    requires first { first ≤ node_count graph.now }
    requires closures { ArePartClosures graph.now first 0 closures.old }
    ensures { AreClosures graph.now closures.new }
{
    for u in first..graph.nodes() {
        share(graph, closures, u);
    }
}

/// Does the same as `share` for the first four nodes. The compiler makes faster code of these calls, whose numbers it
/// knows.
fn share_four(graph: &Graph, closures: &mut [u16])
    requires nodes { 4 ≤ node_count graph.now }
    requires closures { ArePartClosures graph.now 0 0 closures.old }
    ensures { ArePartClosures graph.now 4 0 closures.new }
{
    share(graph, closures, 0);
    share(graph, closures, 1);
    share(graph, closures, 2);
    share(graph, closures, 3);
}

/// Each set that lacks the node `u` keeps what it has in common with the set that also has `u`. `closures` has, for each
/// set, the intersection of the unread sets that contain it and beyond it only nodes below `u`, and then also `u`.
fn share(graph: &Graph, closures: &mut [u16], u: u8)
    requires node { u < node_count graph.now }
    requires closures { ArePartClosures graph.now u 0 closures.old }
    ensures { ArePartClosures graph.now (u + 1) 0 closures.new }
{
    let blocks = 1usize << (graph.nodes() - 1 - u);
    let step = 1usize << u;
    for block in 0..blocks {
        let first = block * (2 * step);
        for set in first..first + step {
            closures[set] &= closures[set + step];
        }
    }
}

/// Lists the unread sets, each of them once, in place of what the list had.
fn find_unread(graph: &Graph, sets: &mut Listed)
    ensures sets { AreUnreadSets graph.now sets.new.sets }
    ensures limit { sets.new.limit ≡ 2 ^ node_count graph.now }
{
    sets.clear(u32::from(graph.full()) + 1);
    sets.insert(0);
    let mut place = 0;
    while place < sets.len() {
        let set = sets.at(place);
        for a in 0..graph.k() {
            sets.insert(back(graph, set, a));
        }
        place += 1;
    }
}

/// Returns the set of the nodes whose edges with the label `a` all end in the given set. A node without such edges is
/// in the result, too.
fn back(graph: &Graph, set: u16, a: u8) -> u16
    requires { a < graph.now.states }
    ensures { IsBack graph.now set a result }
{
    let mut before = 0;
    for u in 0..graph.nodes() {
        if graph.ends(u, a) & !set == 0 {
            before |= 1u16 << u;
        }
    }
    before
}
