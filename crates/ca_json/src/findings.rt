//! The JSON of a finding: the answer to a question about rules.
ghost use Rattle.std.specs.Prelude.{◌≡◌, codes, IfOk};
ghost use Rattle.serde_json.specs.View.{view};
ghost use Rattle.tail_preimage.specs.Answers.{placed_config, placed_of_lent};
ghost use Rattle.ca_questions.specs.Values.{counts_of, finding_of, pair_of, preimage_of};
ghost use Rattle.ca_questions.specs.Writable.{HasTailDigits, HavePairDigits, IsWritable};
ghost use Rattle.ca_json.specs.Findings.{counts_json, finding_json, inverse_json, pair_or_null, placed_json, rule_or_null};

use crate::evidence::report_value;
use crate::languages::automaton_value;
use crate::values::{number_or_null, pair_value, tagged, tail_value, word_or_null};
use ca_questions::{Counts, Finding, Inverse};
use cert_writing::{certificate_value, rule_value, word_value};
use serde_json::{Value, json};
use short_words::ShortPair;
use std::alloc::{AllocError, Global};
use tail_preimage::{LentPlaced, LentPre};
use word_image::Rule;

/// Returns an object for a finding. For most findings its only key names the kind of the finding, for example
/// `{"orphan":"01010"}`.
pub fn finding_value(alloc: Global, found: &Finding) -> Result<Value, AllocError>
    requires { IsWritable (finding_of found.now) }
    ensures { IfOk result (λ v. view v ≡ finding_json (finding_of found.now)) }
{
    match found {
        Finding::Report(report) => tagged(alloc, "report", report_value(alloc, report)?),
        Finding::Written(cert) => tagged(alloc, "certificate", certificate_value(alloc, cert)?),
        Finding::Orphan(orphan) => tagged(alloc, "orphan", word_or_null(alloc, orphan)?),
        Finding::Number(number) => tagged(alloc, "number", number_or_null(alloc, *number)?),
        Finding::Rule(rule) => tagged(alloc, "rule", rule_value(alloc, rule)?),
        Finding::Inverse(inverse) => tagged(alloc, "inverse", inverse_value(alloc, inverse)?),
        Finding::Language(automaton) => {
            tagged(alloc, "automaton", automaton_value(alloc, automaton)?)
        }
        Finding::Same(word) => tagged(alloc, "same", word_or_null(alloc, word)?),
        Finding::Erased(pair) => tagged(alloc, "erased", pair_or_null(alloc, pair)?),
        Finding::Preimage(answer) => preimage_value(alloc, answer),
        Finding::Summary(counts) => tagged(alloc, "summary", counts_value(alloc, counts)?),
        Finding::Classes(counts, classes) => {
            let summary = counts_value(alloc, counts)?;
            json!(in alloc; {"classes": *classes, "summary": summary})
        }
    }
}

/// Returns the object of an inverse map: its window (n, c), its offset, its letters, and the map as a rule. Instead of
/// the rule it has null if the map breaks a limit of rules.
fn inverse_value(alloc: Global, inverse: &Inverse) -> Result<Value, AllocError>
    ensures { IfOk result (λ v. view v ≡ inverse_json inverse.now.n inverse.now.c inverse.now.map inverse.now.rule) }
{
    let map = word_value(alloc, inverse.map.table())?;
    let rule = rule_or_null(alloc, &inverse.rule)?;
    json!(in alloc; {
        "map": map,
        "offset": inverse.map.offset(),
        "rule": rule,
        "window": [inverse.n, inverse.c],
    })
}

/// Returns the text of a rule as a string, or null if there is no rule.
fn rule_or_null(alloc: Global, rule: &Option<Rule>) -> Result<Value, AllocError>
    ensures { IfOk result (λ v. view v ≡ rule_or_null rule.now) }
{
    match rule {
        None => Ok(Value::Null),
        Some(rule) => rule_value(alloc, rule),
    }
}

/// Returns the array of the two words of a pair, or null if there is no pair.
fn pair_or_null(alloc: Global, pair: &Option<ShortPair>) -> Result<Value, AllocError>
    requires { HavePairDigits (pair_of pair.now) }
    ensures { IfOk result (λ v. view v ≡ pair_or_null (pair_of pair.now)) }
{
    match pair {
        None => Ok(Value::Null),
        Some(pair) => pair_value(alloc, pair.x.as_slice(), pair.y.as_slice()),
    }
}

/// Returns the object for a preimage of a configuration, or for the first part of the configuration that is an orphan.
fn preimage_value(alloc: Global, answer: &LentPre) -> Result<Value, AllocError>
    requires { IsWritable (preimage_of answer.now) }
    ensures { IfOk result (λ v. view v ≡ finding_json (preimage_of answer.now)) }
{
    match answer {
        LentPre::From(placed) => tagged(alloc, "preimage", placed_value(alloc, placed)?),
        LentPre::Gap {
            before,
            after,
            word,
        } => {
            let word = word_value(alloc, word)?;
            json!(in alloc; {"gap": {"after": *after, "before": *before, "word": word}})
        }
    }
}

/// Returns the object of a configuration whose middle begins at a given place: this place, and the three parts of the
/// configuration.
fn placed_value(alloc: Global, placed: &LentPlaced) -> Result<Value, AllocError>
    requires { HasTailDigits (placed_config (placed_of_lent placed.now)).config }
    ensures { IfOk result (λ v. view v ≡ placed_json (placed_config (placed_of_lent placed.now))) }
{
    let tail = tail_value(alloc, placed.left, placed.middle, placed.right)?;
    json!(in alloc; {"at": placed.at, "tail": tail})
}

/// Returns the object of counts: how many rules there are, and how many of them have each property.
fn counts_value(alloc: Global, counts: &Counts) -> Result<Value, AllocError>
    ensures { IfOk result (λ v. view v ≡ counts_json (counts_of counts.now)) }
{
    json!(in alloc; {
        "conserving": counts.conserving,
        "injective": counts.injective,
        "left": counts.left,
        "open": counts.open,
        "right": counts.right,
        "rules": counts.rules,
        "surjective": counts.surjective,
    })
}
