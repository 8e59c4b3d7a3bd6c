//! The least ring that a rule only moves. A ring is a word that is read in a circle.
ghost use Rattle.std.specs.Prelude.{◌≡◌, ◌<◌, ◌≤◌, ◌↔◌, length, pos, ◌+ℤ◌, IfSome, IfNone, IsTrue, MatchOption, if◌then◌else◌};
ghost use Rattle.std.specs.Ordering.{is_lt, nat_cmp};
ghost use Rattle.std.specs.Cmp.Lexicographic.{slice_cmp};
ghost use Rattle.word_image.specs.LocalRules.{IsRule, node_count, most_nodes};
ghost use Rattle.word_image.specs.Graphs.{IsNodeSet};
ghost use Rattle.moved_configs.specs.MovedRings.{IsLeastMovedRing, MovesNone, IsFirstReading, ReadsNone, IsFirstRing, ReadsNoRing, LeadsTo, LeadsInto, Leads, IsLeastLetter};

use crate::trims::core;
use crate::windows::{WindowRows, window_rows};
use std::marker::Model;
use word_image::{MOST_NODES, Rule, Side};

/// A ring of 1 to 16 letters. Contracts treat it as the list of its letters.
#[derive(Debug, Drop)]
pub struct MovedRing {
    // The number of letters of the ring.
    count: u8,
    // The letters of the ring, followed by zeros.
    letters: [u8; MOST_NODES],
}

impl Model for MovedRing {
    ghost use Rattle.std.specs.Prelude.{ℕ, ◌≤◌, List, take};

    ghost Value = { List ℕ };

    ghost view = { λ r. take r.count r.letters };

    ghost invariant = { λ r. (1 ≤ r.count) × (r.count ≤ 16) };
}

impl MovedRing {
    /// Returns the letters of the ring from left to right, at most 16.
    pub fn letters(&self) -> &[u8]
        ensures letters { result.now ≡ self.now }
        ensures some { 1 ≤ length result.now }
        ensures short { length result.now ≤ most_nodes }
    {
        &self.letters[..usize::from(self.count)]
    }
}

/// Returns the least ring that the rule only moves by `place` + o cells: the shortest such ring, and among the shortest
/// the first in dictionary order. It has at most k^(m - 1) letters. Returns None if the rule moves no configuration so.
pub fn least_moved_ring(rule: &Rule, place: u8) -> Option<MovedRing>
    requires { place < rule.now.width }
    ensures least { IfSome result (IsLeastMovedRing rule.now (rule.now.offset +ℤ pos place)) }
    ensures none { IfNone result (MovesNone rule.now (rule.now.offset +ℤ pos place)) }
    ensures short { IfSome result (λ ring. length ring ≤ node_count rule.now) }
{
    let nodes = core(rule, place);
    let rows = window_rows(rule, place, nodes);
    for count in 1..rule.nodes() + 1 {
        if let Some(ring) = first_ring(rule, &rows, count) {
            return Some(ring);
        }
    }
    None
}

/// Returns the first ring of `count` letters, in dictionary order, of which each window is in the set. Returns None if
/// there is no such ring.
fn first_ring(rule: &Rule, rows: &WindowRows, count: u8) -> Option<MovedRing>
    requires some { 1 ≤ count }
    requires short { count ≤ most_nodes }
    ensures first { IfSome result (IsFirstRing rule.now rows.now count) }
    ensures none { IfNone result (ReadsNoRing rule.now rows.now (node_count rule.now) count) }
    ensures rule { IsRule rule.now }
{
    let mut best: Option<MovedRing> = None;
    for start in 0..rule.nodes() {
        if let Some(ring) = ring_from(rule, rows, start, count) {
            best = Some(earlier(best, ring));
        }
    }
    best
}

/// Returns the earlier one of two rings, in dictionary order. If there is no first ring, returns the second one.
fn earlier(first: Option<MovedRing>, second: MovedRing) -> MovedRing
    ensures { MatchOption first (result ≡ second) (λ old. result ≡ (if is_lt (slice_cmp nat_cmp second old) then second else old)) }
{
    match first {
        Some(ring) if !is_before(second.letters(), ring.letters()) => ring,
        _ => second,
    }
}

/// Returns whether the first word comes before the second one, in dictionary order.
fn is_before(first: &[u8], second: &[u8]) -> bool
    ensures { result ≡ is_lt (slice_cmp nat_cmp first.now second.now) }
{
    first.cmp(second).is_lt()
}

/// Returns the first word of `count` letters, in dictionary order, that windows of the set read from the node `start`
/// back to it. Returns None if there is no such word.
fn ring_from(rule: &Rule, rows: &WindowRows, start: u8, count: u8) -> Option<MovedRing>
    requires start { start < node_count rule.now }
    requires few { start < most_nodes }
    requires some { 1 ≤ count }
    requires short { count ≤ most_nodes }
    ensures first { IfSome result (IsFirstReading rule.now rows.now start count) }
    ensures none { IfNone result (ReadsNone rule.now rows.now start count) }
{
    rule.keeps_limits();
    if rows[usize::from(start)] == 0 {
        return None;
    }
    let mut letters = [0; MOST_NODES];
    let mut node = start;
    for place in 0..count {
        let goals = sources(rule, rows, start, count - 1 - place);
        let Some(letter) = least_letter(rule, rows, node, goals) else {
            return None;
        };
        letters[usize::from(place)] = letter;
        node = Side::Right.end_node(rule, Side::Right.window_with(rule, node, letter));
    }
    Some(MovedRing { count, letters })
}

/// Returns the nodes from which `steps` windows of the set lead to the node `end`.
fn sources(rule: &Rule, rows: &WindowRows, end: u8, steps: u8) -> u16
    requires end { end < node_count rule.now }
    requires few { end < most_nodes }
    ensures { IsNodeSet rule.now (LeadsTo rule.now rows.now steps end) result }
{
    let mut nodes = 1u16 << end;
    for _step in 0..steps {
        nodes = before(rule, rows, nodes);
    }
    nodes
}

/// Returns the nodes from which a window of the set leads to one of the nodes.
fn before(rule: &Rule, rows: &WindowRows, nodes: u16) -> u16
    ensures nodes { IsNodeSet rule.now (LeadsInto rule.now rows.now nodes) result }
    ensures rule { IsRule rule.now }
{
    let mut found = 0;
    for node in 0..rule.nodes() {
        if leads_into(rule, rows, node, nodes) {
            found |= 1u16 << node;
        }
    }
    found
}

/// Returns whether a window of the set leads from the node to one of the nodes.
fn leads_into(rule: &Rule, rows: &WindowRows, node: u8, nodes: u16) -> bool
    requires { node < node_count rule.now }
    ensures { IsTrue result ↔ LeadsInto rule.now rows.now nodes node }
{
    least_letter(rule, rows, node, nodes).is_some()
}

/// Returns the least letter on which a window of the set leads from the node to one of the nodes, or None if there is
/// no such letter.
fn least_letter(rule: &Rule, rows: &WindowRows, node: u8, nodes: u16) -> Option<u8>
    requires node { node < node_count rule.now }
    ensures least { IfSome result (IsLeastLetter rule.now rows.now node nodes) }
    ensures none { IfNone result (¬ LeadsInto rule.now rows.now nodes node) }
{
    for letter in 0..rule.k() {
        if leads(rule, rows, node, letter, nodes) {
            return Some(letter);
        }
    }
    None
}

/// Returns whether the window of the node and the letter is in the set, and leads to one of the nodes.
fn leads(rule: &Rule, rows: &WindowRows, node: u8, letter: u8, nodes: u16) -> bool
    requires node { node < node_count rule.now }
    requires letter { letter < rule.now.states }
    ensures { IsTrue result ↔ Leads rule.now rows.now nodes node letter }
{
    let end = Side::Right.end_node(rule, Side::Right.window_with(rule, node, letter));
    nodes >> end & 1 == 1 && rows[usize::from(node)] >> letter & 1 == 1
}
