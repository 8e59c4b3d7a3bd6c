//! Questions about rules, their answers, and the causes why a question has no answer. All of them are values, without
//! texts.
//!
//! A question names its rules and, if needed, weights, numbers, letters or a configuration. A *finding* is the answer
//! to a question as a value. For example, findings are verdicts with their evidence, a certificate, a rule, an
//! automaton, a word, or counts. The *shape* of a rule is its number of states, its width and its offset. If a question
//! has no finding, nothing *fits* it, and a *cause* says why. For example, the question for the inverse of rule 170 has
//! a finding: the map 0 1 over the window (1, 2). The question for the inverse of rule 90 has none. The cause is the
//! twins 0 and 1, whose rings have the same image.
//!
//! The page of the crate cert_conditions explains the kinds of evidence for a verdict: orphans, windows, twins,
//! look-aheads, splits, fluxes and rings.
//!
//! An *erasable pair* is two different words of the same length with the same image, the same first m - 1 letters and
//! the same last m - 1 letters. So each of them can replace the other in any configuration without a change of the
//! image. The *class* of a rule has all rules at offset 0 that you get from the table of the rule, or from the table
//! of the mirrored rule, by new names for the letters. The *second-order lift* of a rule is a reversible rule whose
//! letters are pairs of its letters (crate rule_classes).
//!
//! The definition `IsFinding` of specs/Findings.antt says which finding is right for which question, and the
//! definition `IsCauseFor` says which cause is right. [`finding_or_cause`] is a law about both definitions. The
//! contract of each function that answers a question is `Answers` of specs/Values.antt. The text of a finding depends
//! only on the finding.
//!
//! A *reply* to the words of a command line is one of these values: a finding, a cause, the fault of an operand, the
//! result of judging an input, or that the words are no command. A reply has two forms, a text and JSON.
//!
//! [`Question`], [`Finding`], [`Cause`] and [`Reply`] are these values in code, as plain enums. `question_of`,
//! `finding_of`, `cause_of` and `reply_of` map them to the values of the definitions. A [`Stop`] says why no finding
//! was found for a question: a cause, or that there is no memory.
//!
//! A text or JSON has a hexadecimal digit for each letter of a word, so letters must be below 16. A finding is
//! *writable* if its letters are below 16 and its automaton, if it has one, has all its rows. The law
//! [`right_findings_are_writable`] says that each right finding about accepted rules is writable.
#![tactic(auto)]

mod found;
mod question;
mod reply;
mod short_list;

ghost use Rattle.ca_questions.specs.Findings.{IsFinding, IsCauseFor};
ghost use Rattle.ca_questions.specs.Findings as findings;
ghost use Rattle.ca_questions.specs.Questions.{AreRules};
ghost use Rattle.ca_questions.specs.Questions as questions;
ghost use Rattle.ca_questions.specs.Writable.{IsWritable, IsWritableCause};

pub use found::{Automaton, Cause, Counts, Finding, Inverse, Stop};
pub use question::{Drawn, Numbered, Question};
pub use reply::Reply;
pub use short_list::ShortList;

/// Law: no question has both a right finding and a right cause why it has none.
pub fn finding_or_cause()
    ensures { (q : questions.Question) (f : findings.Finding) (u : findings.Cause) → IsFinding q f → ¬ IsCauseFor q u }
{}

/// Law: right findings and right causes for accepted rules can be written. Their letters are below 16, so they have
/// hexadecimal digits, and automata have all their rows.
pub fn right_findings_are_writable()
    ensures finding { (q : questions.Question) (f : findings.Finding) → AreRules q → IsFinding q f → IsWritable f }
    ensures cause { (q : questions.Question) (u : findings.Cause) → AreRules q → IsCauseFor q u → IsWritableCause u }
{}
