//! Calls the public functions that other programs in Rattle use, and names their types. These are the calls with memory of
//! their own, and some calls that the programs of this repository use too. If one of them goes away, moves to another crate
//! or changes its types, this crate no longer compiles.
//!
//! A function here has only the preconditions that its calls require. If a called function requires more than before,
//! its call here can't be proved.
//!
//! The comments use the following terms.
//!
//! The page of the crate cert_conditions explains the kinds of evidence for a verdict: orphans, windows, twins,
//! look-aheads, splits, fluxes and rings. The page of the crate ca_questions explains erasable pairs, classes of rules
//! and second-order lifts.
//!
//! A *node* is a word of m - 1 letters, and a *step* of a pair of nodes follows two edges of the de Bruijn graph with
//! equal labels. In the *marked graph* each pair of nodes occurs twice, without a mark and with it. A step on two
//! different letters sets the mark. A *first pair on the right* is a pair to which two different letters lead from
//! the same node, along edges with equal labels.
#![tactic(auto)]

pub mod certificates;
pub mod configurations;
pub mod deciders;
pub mod graphs;
pub mod made_rules;
pub mod pairs;
pub mod programs;
pub mod rules;
pub mod streams;
