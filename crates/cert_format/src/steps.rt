//! The steps of reading a certificate. Each step finds the member with a key in a JSON object, and reads its value.
ghost use Rattle.std.specs.Prelude.{ℕ, List, Option, IfOk, IfErr};
ghost use Rattle.serde_json.specs.View.{view};
ghost use Rattle.cert_values.specs.Evidence.{SurjectiveEvidence, InjectiveEvidence, SideEvidence, SumEvidence};
ghost use Rattle.cert_values.specs.CertificateTexts.{HasSurjective, HasInjective, HasSide, HasConserving, HasWeights, HasRanks};
ghost use Rattle.cert_values.specs.Parts.{surjective_of, injective_of, side_of, sum_of, IsOver};
ghost use Rattle.cert_format.specs.Readings.{members_in, IsStepFault};

use crate::cert_fault::CertFault;
use crate::evidence::{conserving, injective, ranks, side, surjective, weights};
use crate::members::member;
use crate::misread::Misread;
use cert_values::{CertVersion, InjectivePart, Key, SidePart, SumPart, SurjectivePart};
use serde_json::Value;
use std::alloc::Global;
use word_image::{RankRow, Rule, Weights};

/// Reads the evidence about surjectivity, or returns the fault that it is missing or has the wrong shape.
pub fn surjective_step(
    alloc: Global,
    version: CertVersion,
    rule: &Rule,
    value: &Value,
) -> Result<SurjectivePart, CertFault>
    ensures part { IfOk result (λ p.
        HasSurjective version rule.now (members_in (view value.now)) (surjective_of p)) }
    ensures fault { IfErr result (IsStepFault Key.Surjective
        ((e : SurjectiveEvidence) × HasSurjective version rule.now (members_in (view value.now)) e)) }
{
    let part = member(value, "surjective").ok_or(Misread::Shape.fault_at(Key::Surjective))?;
    surjective(alloc, version, rule, part).map_err(|fault| fault.fault_at(Key::Surjective))
}

/// Reads the evidence about injectivity, or returns the fault that it is missing or has the wrong shape.
pub fn injective_step(alloc: Global, rule: &Rule, value: &Value) -> Result<InjectivePart, CertFault>
    ensures part { IfOk result (λ p.
        HasInjective rule.now (members_in (view value.now)) (injective_of p)) }
    ensures fault { IfErr result (IsStepFault Key.Injective
        ((e : InjectiveEvidence) × HasInjective rule.now (members_in (view value.now)) e)) }
{
    let part = member(value, "injective").ok_or(Misread::Shape.fault_at(Key::Injective))?;
    injective(alloc, rule, part).map_err(|fault| fault.fault_at(Key::Injective))
}

/// Reads the evidence about closing on a side, which is the member with the key `name`. Otherwise returns the fault
/// that it is missing or has the wrong shape. `key` names the side in this fault.
pub fn side_step(
    alloc: Global,
    rule: &Rule,
    value: &Value,
    key: Key,
    name: &str,
) -> Result<SidePart, CertFault>
    ensures states { IfOk result (IsOver (rule.now).states) }
    ensures part { IfOk result (λ p.
        HasSide name.now rule.now (members_in (view value.now)) (side_of p)) }
    ensures fault { IfErr result (IsStepFault key
        ((e : SideEvidence) × HasSide name.now rule.now (members_in (view value.now)) e)) }
{
    let part = member(value, name).ok_or(Misread::Shape.fault_at(key))?;
    side(alloc, rule, part).map_err(|fault| fault.fault_at(key))
}

/// Reads the evidence about conservation of the sum, or returns the fault that it is missing or has the wrong shape.
pub fn conserving_step(alloc: Global, rule: &Rule, value: &Value) -> Result<SumPart, CertFault>
    ensures part { IfOk result (λ p.
        HasConserving rule.now (members_in (view value.now)) (sum_of p)) }
    ensures fault { IfErr result (IsStepFault Key.Conserving
        ((e : SumEvidence) × HasConserving rule.now (members_in (view value.now)) e)) }
{
    let part = member(value, "conserving").ok_or(Misread::Shape.fault_at(Key::Conserving))?;
    conserving(alloc, rule, part).map_err(|fault| fault.fault_at(Key::Conserving))
}

/// Reads the weights. If there are none, or if the version may not name any, returns the weights by which each letter
/// weighs its own value. Returns the fault if the weights have the wrong shape.
pub fn weights_step(
    alloc: Global,
    version: CertVersion,
    rule: &Rule,
    value: &Value,
) -> Result<Weights, CertFault>
    ensures weights { IfOk result (HasWeights version rule.now (members_in (view value.now))) }
    ensures fault { IfErr result (IsStepFault Key.Weights
        ((weights : List ℕ) × HasWeights version rule.now (members_in (view value.now)) weights)) }
{
    if !version.names_weights() {
        return Ok(Weights::own(rule.k()));
    }
    let Some(list) = member(value, "weights") else {
        return Ok(Weights::own(rule.k()));
    };
    match weights(alloc, rule, list) {
        Ok(weights) => Ok(weights),
        Err(fault) => Err(fault.fault_at(Key::Weights)),
    }
}

/// Reads the claims for all pairs of nodes, and returns the forward claims first. Otherwise returns the fault that
/// they are missing or have the wrong shape.
pub fn ranks_step(
    alloc: Global,
    rule: &Rule,
    value: &Value,
) -> Result<(RankRow, RankRow), CertFault>
    ensures rows { IfOk result (λ p.
        HasRanks rule.now (members_in (view value.now)) p.0 p.1) }
    ensures fault { IfErr result (IsStepFault Key.Ranks
        ((forward backward : List (Option ℕ))
        × HasRanks rule.now (members_in (view value.now)) forward backward)) }
{
    let Some(rows) = member(value, "ranks") else {
        return Err(Misread::Shape.fault_at(Key::Ranks));
    };
    match ranks(alloc, rule, rows) {
        Ok(rows) => Ok(rows),
        Err(fault) => Err(fault.fault_at(Key::Ranks)),
    }
}
