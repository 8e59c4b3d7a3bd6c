//! Answers to questions about the verdicts on a rule.
ghost use Rattle.std.specs.Prelude.{◌≡◌, length, true, option_copied, IfNone, IfOk, IfSome};
ghost use Rattle.cert_values.specs.Versions.{names_weights};
ghost use Rattle.ca_questions.specs.Questions.{AreFor, Question};
ghost use Rattle.ca_questions.specs.Findings.{IsFinding, weights_by};
ghost use Rattle.ca_questions.specs.Values.{Answers, Settles, finding_of};

use ca_questions::{Cause, Finding, Stop};
use cert_values::CertVersion;
use rule_verdicts::{ReportRoom, least_orphan, least_report};
use std::alloc::Global;
use word_image::{Rule, Weights};

/// Returns the verdicts on a rule under these weights, each with the least evidence. Without weights, each letter
/// weighs its own value. Returns the cause `Weights` if there isn't one weight for each letter.
pub fn report<'r>(
    room: &'r mut ReportRoom,
    rule: &Rule,
    weights: Option<&[u8]>,
) -> Result<Finding<'r>, Cause>
    ensures { Settles (Question.Report rule.now (option_copied weights.entry)) result }
{
    rule.keeps_limits();
    match weights_for(rule, weights) {
        Some(weights) => Ok(Finding::Report(least_report(room, rule, &weights))),
        None => Err(Cause::Weights),
    }
}

/// Returns the given weights if there is one for each letter of the rule, and None if not. If no weights are given,
/// returns the weights by which each letter weighs its own value.
pub fn weights_for(rule: &Rule, weights: Option<&[u8]>) -> Option<Weights>
    ensures each { IfSome result (λ each. AreFor (option_copied weights.entry) rule.now) }
    ensures weights { IfSome result (λ each. each ≡ weights_by (option_copied weights.entry) rule.now) }
    ensures letters { IfSome result (λ each. length each ≡ rule.now.states) }
    ensures none { IfNone result (¬ AreFor (option_copied weights.entry) rule.now) }
{
    let Some(list) = weights else {
        return Some(Weights::own(rule.k()));
    };
    match Weights::new(rule.k(), list) {
        Ok(weights) => Some(weights),
        Err(_) => None,
    }
}

/// Returns the certificate of this version for the rule and these weights. The version is 2 or 3. Returns the cause
/// `Weights` if there isn't one weight for each letter.
pub fn certificate(
    alloc: Global,
    room: &mut ReportRoom,
    version: CertVersion,
    rule: &Rule,
    weights: Option<&[u8]>,
) -> Result<Finding<'static>, Stop>
    requires { names_weights version ≡ true }
    ensures { Answers (Question.Certify version rule.now (option_copied weights.entry)) result }
{
    match weights_for(rule, weights) {
        Some(weights) => {
            let cert = rule_verdicts::certificate(alloc, room, version, rule, &weights)?;
            Ok(Finding::Written(cert))
        }
        None => Err(Stop::NotFit(Cause::Weights)),
    }
}

/// Returns the answer with the least orphan, or without an orphan if the rule is surjective.
pub fn orphan<'r>(room: &'r mut ReportRoom, rule: &Rule) -> Finding<'r>
    ensures { IsFinding (Question.Orphan rule.now) (finding_of result) }
{
    Finding::Orphan(least_orphan(room, rule))
}

/// Returns the answer with the Wolfram number of a rule, or without a number if the rule has 7 states or more.
pub fn number(rule: &Rule) -> Finding<'static>
    ensures { IsFinding (Question.Number rule.now) (finding_of result) }
{
    Finding::Number(rule_text::number(rule))
}
