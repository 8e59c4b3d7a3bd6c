//! The function `from_bytes`, which reads a certificate from bytes.
ghost use Rattle.std.specs.Prelude.{◌≡◌, ℕ, ◌⊎◌, List, alloc_error, IfOk, IfErr, IfSome, IfNone};
ghost use Rattle.serde_json.specs.View.{view};
ghost use Rattle.word_image.specs.LocalRules.{IsRule};
ghost use Rattle.rule_text.specs.RuleTexts.{IsRuleText};
ghost use Rattle.cert_values.specs.Certificates.{Certificate};
ghost use Rattle.cert_values.specs.Versions.{number_of};
ghost use Rattle.cert_values.specs.CertificateTexts.{AreParts, IsCertificateText, IsObject, HasVersion, HasRuleText};
ghost use Rattle.cert_values.specs.declared.shape_fault.ShapeFault.{ShapeFault};
ghost use Rattle.cert_values.specs.ShapeFaults.{IsShapeFault};
ghost use Rattle.cert_format.specs.Readings.{members_in, IsPartFault, IsCertFault};

use crate::cert_fault::CertFault;
use crate::members::{has_no_other, member};
use crate::steps::{
    conserving_step, injective_step, ranks_step, side_step, surjective_step, weights_step,
};
use cert_values::{Cert, CertVersion, Key, ShapeFault};
use rule_text::parse;
use serde_json::Value;
use std::alloc::{AllocError, Global};
use word_image::Rule;

/// Reads the certificate whose text the bytes are, or returns the first fault of the bytes. The text may have blanks,
/// and its keys may be in any order. If a key occurs twice, the last member counts.
pub fn from_bytes(alloc: Global, bytes: &[u8]) -> Result<Cert, CertFault>
    ensures cert { IfOk result (IsCertificateText bytes.now) }
    ensures fault { IfErr result (IsCertFault bytes.now) }
    ensures every_cert { (c : Certificate) → IsCertificateText bytes.now c
        → (result ≡ Ok c) ⊎ (result ≡ Err (CertFault.Memory alloc_error)) }
    ensures every_fault { (s : ShapeFault) → IsShapeFault bytes.now s
        → (result ≡ Err (CertFault.Format s)) ⊎ (result ≡ Err (CertFault.Memory alloc_error)) }
{
    read_certificate(alloc, bytes)
}

/// Reads a certificate, and ignores keys that no certificate has. If the bytes have another fault, returns the first
/// one.
fn read_certificate(alloc: Global, bytes: &[u8]) -> Result<Cert, CertFault>
    ensures cert { IfOk result (IsCertificateText bytes.now) }
    ensures fault { IfErr result (IsCertFault bytes.now) }
{
    let value = read_object(alloc, bytes)?;
    let (version, rule) = match read_head(&value) {
        Ok(head) => head,
        Err(fault) => return Err(CertFault::Format(fault)),
    };
    read_parts(alloc, version, rule, &value)
}

/// Reads bytes as a JSON object, or returns the fault that they aren't JSON or not an object.
fn read_object(alloc: Global, bytes: &[u8]) -> Result<Value, CertFault>
    ensures object { IfOk result (λ v. IsObject bytes.now (members_in (view v))) }
    ensures fault { IfErr result (IsCertFault bytes.now) }
{
    let value = match Value::from_slice(alloc, bytes) {
        Ok(value) => value,
        Err(fault) if fault.is_memory() => return Err(CertFault::Memory(AllocError)),
        Err(_) => return Err(CertFault::Format(ShapeFault::NotJson)),
    };
    if !value.is_object() {
        return Err(CertFault::Format(ShapeFault::Shape(Key::Top)));
    }
    Ok(value)
}

/// Reads the version of a certificate and its rule, or returns the first fault of these two.
fn read_head(value: &Value) -> Result<(CertVersion, Rule), ShapeFault>
    ensures version { IfOk result (λ h. HasVersion (members_in (view value.now)) (number_of h.0)) }
    ensures rule { IfOk result (λ h. (text : List ℕ)
        × HasRuleText (members_in (view value.now)) text × IsRuleText text h.1) }
    ensures fault { (bytes : List ℕ) → IsObject bytes (members_in (view value.now))
        → IfErr result (IsShapeFault bytes) }
{
    let version = read_version(value)?;
    let Some(text) = rule_text(value) else {
        return Err(ShapeFault::Shape(Key::Rule));
    };
    match parse(text.as_bytes()) {
        Ok(rule) => Ok((version, rule)),
        Err(fault) => Err(ShapeFault::Rule(fault)),
    }
}

/// Reads the version of a certificate, or returns its fault.
fn read_version(value: &Value) -> Result<CertVersion, ShapeFault>
    ensures version { IfOk result (λ v. HasVersion (members_in (view value.now)) (number_of v)) }
    ensures fault { (bytes : List ℕ) → IsObject bytes (members_in (view value.now))
        → IfErr result (IsShapeFault bytes) }
{
    let Some(number) = version(value) else {
        return Err(ShapeFault::Shape(Key::Version));
    };
    match CertVersion::of(number) {
        Some(version) => Ok(version),
        None => Err(ShapeFault::Version(number)),
    }
}

/// Returns the number of the version, or None if it is missing or isn't a whole number.
fn version(value: &Value) -> Option<u64>
    ensures some { IfSome result (HasVersion (members_in (view value.now))) }
    ensures none { IfNone result ((v : ℕ) → ¬ HasVersion (members_in (view value.now)) v) }
{
    member(value, "version")?.as_u64()
}

/// Returns the text of the rule, or None if it is missing or isn't a string.
fn rule_text(value: &Value) -> Option<&str>
    ensures some { IfSome result (λ t. HasRuleText (members_in (view value.now)) t.now) }
    ensures none { IfNone result ((text : List ℕ)
        → ¬ HasRuleText (members_in (view value.now)) text) }
{
    member(value, "rule")?.as_str()
}

/// Reads the evidence, the weights and the ranks of a certificate, one after another. Returns the fault of the first
/// of these parts that has one.
fn read_parts(
    alloc: Global,
    version: CertVersion,
    rule: Rule,
    value: &Value,
) -> Result<Cert, CertFault>
    requires { IsRule rule }
    ensures version { IfOk result (λ c. c.version ≡ version) }
    ensures rule { IfOk result (λ c. c.rule ≡ rule) }
    ensures parts { IfOk result (AreParts (members_in (view value.now))) }
    ensures fault { IfErr result (IsPartFault version rule (members_in (view value.now))) }
{
    let surjective = surjective_step(alloc, version, &rule, value)?;
    let injective = injective_step(alloc, &rule, value)?;
    let right = side_step(alloc, &rule, value, Key::Right, "right")?;
    let left = side_step(alloc, &rule, value, Key::Left, "left")?;
    let conserving = conserving_step(alloc, &rule, value)?;
    let weights = weights_step(alloc, version, &rule, value)?;
    let (forward, backward) = ranks_step(alloc, &rule, value)?;
    if !has_no_other(version, value) {
        return Err(CertFault::Format(ShapeFault::Shape(Key::Unknown)));
    }
    Ok(Cert {
        version,
        rule,
        surjective,
        injective,
        right,
        left,
        conserving,
        weights,
        forward,
        backward,
    })
}
