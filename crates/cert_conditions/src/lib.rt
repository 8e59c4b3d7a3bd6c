//! The conditions on a certificate, and which bytes are accepted or refused. This crate has only values and laws. It
//! finds no evidence and judges nothing. The judge is the crate `cert_check`.
//!
//! A node is a word of m - 1 letters. A window leads from the node of its first letters to the node of its last
//! letters, and its label is the letter that the rule gives for it (Sutner 1991). The step of a set of nodes on a
//! label leads to all nodes that windows with this label reach from the set. A step of a pair of nodes follows two
//! windows with equal labels, one from each node.
//!
//! - A *claim* is a number for a pair of nodes: at most this many steps can follow each other from the pair. Forward
//!   claims are about steps forward, and backward claims about steps backward. A pair may have no claim. A claim on
//!   the right is a forward claim, and a claim on the left is a backward claim.
//! - A *first pair on the right* is a pair to which two different letters lead from the same node, by windows with
//!   equal labels. A *first pair on the left* is a pair of nodes that differ only in their first letter, from which
//!   two windows with equal labels and with the same last letter lead.
//! - The *gain* of a window is the weight of the letter that the rule gives for it, minus the weight of its first
//!   letter. A flux has a number for each node. It *balances* at a window if the gain is the number of the first node
//!   minus the number of the last node.
//!
//! The evidence for a verdict has these kinds. An *orphan* is a word without a preimage. A *window* (n, c) says that
//! n letters of an image determine the letter at place c of each preimage. *Twins* are two different words of the
//! same length whose rings have the same image. Let the rule have width m. A number n is a right *look-ahead* if the
//! first m - 1 letters of a word and the first n letters of its image determine the next letter of the word. A left
//! look-ahead is a right look-ahead of the mirrored rule. A *split* of a side is two different configurations that
//! share an image and agree on the other side. A *flux* has a number for each node, which is a word of m - 1 letters,
//! and shows that each ring keeps its sum of weights. A *ring* is a word whose last letter is followed by its first
//! letter.
//!
//! For each question a certificate has the evidence for one answer.
//!
//! - Surjective: a list of sets of nodes. It has the set of all nodes, but not the empty set. Each step of a listed
//!   set leads to a listed set, or from version 2 on to a set that contains one. In version 3 it may be a list of
//!   pairs of nodes instead. This list has each first pair on the right, and each pair to which a step leads from a
//!   listed pair, but no pair of equal nodes (Moore 1962, Myhill 1963).
//! - Not surjective: a word whose steps lead from the set of all nodes to the empty set.
//! - Injective: a window (n, c). The claims must show that n letters of an image determine the letter at place c of
//!   each preimage. Not injective: two words whose rings have the same image.
//! - Closing on a side: a look-ahead that the claims allow. Not closing: two configurations that share an image and
//!   agree on the other side.
//! - Conserving: a flux that balances (Hattori and Takesue 1991). Not conserving: a ring whose image has another sum
//!   of weights.
//!
//! The shift `2:2:0:t0101` has the nodes 0 and 1, and the label of a window is its last letter. The set of all nodes
//! has the number 3. Its step on the label 0 leads to the set 1, and its step on the label 1 to the set 2. The steps
//! of the sets 1 and 2 lead to the same two sets. So the sets 3, 1, 2 prove that the rule is surjective. A
//! certificate with only the sets 3 and 1 is refused as `NotClosed(0, 1)`. The rule `2:2:0:t0011` gives the first
//! cell. From each node two different letters lead to the pairs 1 and 2 with equal labels. These pairs have no steps,
//! so they prove that the rule is surjective.
//!
//! There are seventeen conditions: three of the fourteen kinds of [`Condition`] exist for each of the two sides.
//! `Holds` of specs/Conditions.antt says when a certificate meets a condition. `IsAccepted` of specs/Accepted.antt
//! says which bytes are accepted, with which [`Verdicts`]. `IsRefusal` of specs/Refusals.antt says which bytes are
//! refused, with which [`Refusal`]. The law [`accepted_is_true`] says that accepted verdicts are true.
#![tactic(auto)]

mod condition;
mod refusal;
mod refusal_parts;
mod theorems;
mod verdicts;

pub use condition::Condition;
pub use refusal::{Refusal, SplitCause, TwinCause};
pub use refusal_parts::{RefusalNumbers, RefusalParts};
pub use theorems::{accepted_is_true, later_versions_ask_no_more, one_answer};
pub use verdicts::Verdicts;
