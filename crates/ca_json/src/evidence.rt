//! The JSON of a report: the verdicts of a rule with their evidence.
ghost use Rattle.std.specs.Prelude.{◌≡◌, IfOk};
ghost use Rattle.serde_json.specs.View.{view};
ghost use Rattle.rule_verdicts.specs.Reports.{evidence_of, injective_of, side_in, sum_of};
ghost use Rattle.ca_questions.specs.Findings.{Finding};
ghost use Rattle.rule_text.specs.PrintedRules.{number_found};
ghost use Rattle.ca_questions.specs.Writable.{HasDigits, HasRingDigits, HasTwinDigits, IsWritable};
ghost use Rattle.ca_json.specs.Findings.{report_json};
ghost use Rattle.ca_json.specs.Values.{conserving_json, injective_json, number_or_null, side_json, surjective_json, tail_json};

use crate::values::{number_or_null, pair_value, tail_value};
use cert_writing::{flux_value, rule_value, weights_value, word_value};
use closing_test::LentClosing;
use flux_conserve::Keeping;
use rule_text::number;
use rule_verdicts::{Injectivity, Report};
use serde_json::{Map, Value, json, put};
use short_words::LentWord;
use std::alloc::{AllocError, Global};
use tail_config::LentTail;
use word_image::{FluxRow, Rule};

/// Returns the object of a report: the rule, its number, the weights, and the verdicts with their evidence.
pub fn report_value(alloc: Global, report: &Report) -> Result<Value, AllocError>
    requires { IsWritable (Finding.Report (evidence_of report.now)) }
    ensures { IfOk result (λ v. view v ≡ report_json (evidence_of report.now)) }
{
    let conserving = conserving_value(alloc, &report.rule, &report.conserving)?;
    let injective = injective_value(alloc, &report.injective)?;
    let left = side_value(alloc, &report.left)?;
    let number = number_value(alloc, &report.rule)?;
    let open = Value::from(report.is_open());
    let right = side_value(alloc, &report.right)?;
    let rule = rule_value(alloc, &report.rule)?;
    let surjective = surjective_value(alloc, &report.orphan)?;
    let weights = weights_value(alloc, &report.weights)?;
    let mut members = Map::new(alloc);
    put(&mut members, alloc, "conserving", conserving)?;
    put(&mut members, alloc, "injective", injective)?;
    put(&mut members, alloc, "left", left)?;
    put(&mut members, alloc, "number", number)?;
    put(&mut members, alloc, "open", open)?;
    put(&mut members, alloc, "right", right)?;
    put(&mut members, alloc, "rule", rule)?;
    put(&mut members, alloc, "surjective", surjective)?;
    put(&mut members, alloc, "weights", weights)?;
    Ok(Value::from(members))
}

/// Returns the Wolfram number of a rule as a string, or null if the rule has 7 states or more.
fn number_value(alloc: Global, rule: &Rule) -> Result<Value, AllocError>
    ensures { IfOk result (λ v. view v ≡ number_or_null (number_found rule.now)) }
{
    number_or_null(alloc, number(rule))
}

/// Returns the object that says whether the rule is surjective, with the orphan if it isn't.
fn surjective_value(alloc: Global, orphan: &Option<LentWord>) -> Result<Value, AllocError>
    requires { HasDigits orphan.now }
    ensures { IfOk result (λ v. view v ≡ surjective_json orphan.now) }
{
    match orphan {
        None => json!(in alloc; {"holds": true}),
        Some(word) => {
            let orphan = word_value(alloc, word.as_slice())?;
            json!(in alloc; {"holds": false, "orphan": orphan})
        }
    }
}

/// Returns the object that says whether the rule is injective, with a window if it is, and with twins if it isn't.
fn injective_value(alloc: Global, found: &Injectivity) -> Result<Value, AllocError>
    requires { HasTwinDigits (injective_of found.now) }
    ensures { IfOk result (λ v. view v ≡ injective_json (injective_of found.now)) }
{
    match found {
        Injectivity::Window { n, c } => json!(in alloc; {"holds": true, "window": [*n, *c]}),
        Injectivity::Twins(pair) => {
            let twins = pair_value(alloc, pair.x.as_slice(), pair.y.as_slice())?;
            json!(in alloc; {"holds": false, "twins": twins})
        }
    }
}

/// Returns the object that says whether the rule closes on a side, with a look-ahead if it does, and with a split if
/// it doesn't.
fn side_value(alloc: Global, found: &LentClosing) -> Result<Value, AllocError>
    ensures { IfOk result (λ v. view v ≡ side_json (side_in found.now)) }
{
    match found {
        LentClosing::Ahead(n) => json!(in alloc; {"ahead": *n, "holds": true}),
        LentClosing::Split(x, y) => {
            let x = accepted_tail_value(alloc, x)?;
            let y = accepted_tail_value(alloc, y)?;
            json!(in alloc; {"holds": false, "split": [x, y]})
        }
    }
}

/// Returns the object that says whether this rule conserves the sum, with a flux if it does, and with a ring if it
/// doesn't.
fn conserving_value(alloc: Global, rule: &Rule, found: &Keeping) -> Result<Value, AllocError>
    requires { HasRingDigits (sum_of rule.now found.now) }
    ensures { IfOk result (λ v. view v ≡ conserving_json (sum_of rule.now found.now)) }
{
    match found {
        Keeping::Flux(flows) => {
            let flows = &flows[..usize::from(rule.nodes())];
            let flux = flux_value(alloc, &FluxRow::of(flows.to_vec(alloc)?))?;
            json!(in alloc; {"flux": flux, "holds": true})
        }
        Keeping::Ring(ring) => {
            let ring = word_value(alloc, ring.letters())?;
            json!(in alloc; {"holds": false, "ring": ring})
        }
    }
}

/// Returns the object with the left period, the middle and the right period of a configuration.
fn accepted_tail_value(alloc: Global, tail: &LentTail) -> Result<Value, AllocError>
    ensures { IfOk result (λ v. view v ≡ tail_json (tail.now).config) }
{
    tail_value(alloc, tail.left(), tail.middle(), tail.right())
}
