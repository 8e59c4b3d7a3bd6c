//! Laws of the certificate that the program writes for a rule.
//!
//! A certificate answers five questions about a rule, each with evidence. The program writes a certificate for a rule
//! and weights of its letters. It has the least evidence for each answer, the flux that is 0 at node 0, and the exact
//! rank of each pair of nodes. If the rule is surjective, the certificate also has a list that proves it.
//!
//! In version 2 this is the *cover list*. It has the set of all nodes, and each other set to which words lead from it
//! and that contains no other such set. For example, rule 106 has the cover list 15, 1, 2, 4, 8. In version 3 the list
//! has the *reached pairs*: the pairs of nodes to which two walks with equal labels lead that left one node by
//! different letters.
//!
//! Such a certificate meets the conditions of the judge and keeps its limits, so the judge accepts its text. The text
//! has fewer than 450,000 bytes. At most it has 65,537 sets of five digits each, or 256 pairs, or an orphan of 65,536
//! letters. Everything else together has fewer than 20,000 bytes.
//!
//! This crate has no functions. Its laws are only about the definitions of rules and certificates. They aren't about
//! the code that decides questions, so they hold no matter who finds the evidence.
#![tactic(auto)]
