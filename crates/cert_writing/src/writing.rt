//! Functions that make the JSON of a certificate and write its text.
ghost use Rattle.std.specs.Prelude.{◌≡◌, ℕ, List, map, IfOk, OnOk, IsUtf8};
ghost use Rattle.serde_json.specs.Data.{string, no_members};
ghost use Rattle.serde_json.specs.View.{view, members_view};
ghost use Rattle.word_image.specs.LocalRules.{IsWord, most_states};
ghost use Rattle.rule_text.specs.PrintedRules.{printed_rule};
ghost use Rattle.cert_values.specs.Certificates.{Certificate};
ghost use Rattle.cert_values.specs.Parts.{IsShaped};
ghost use Rattle.cert_values.specs.CertificateTexts.{IsCertificateText};
ghost use Rattle.cert_values.specs.Parts.{side_of};
ghost use Rattle.cert_values.specs.WrittenTexts as written;
ghost use Rattle.cert_values.specs.WrittenTexts.{array_from, members_before, certificate_text};

use cert_values::{Cert, InjectivePart, SidePart, SumPart, SurjectivePart};
use serde_json::{Map, Value, json, put};
use std::alloc::{AllocError, Global};
use tail_config::Tail;
use word_image::{FluxRow, RankRow, Rule, SetList, Weights, word_text};

/// Returns the text of a certificate: JSON without blanks, with ascending keys. The only error is lack of memory.
pub fn to_bytes(alloc: Global, cert: &Cert) -> Result<Vec<u8>, AllocError>
    ensures text { IfOk result (λ text. text.items ≡ certificate_text cert.now) }
    ensures read_back { IfOk result (λ text. IsCertificateText text.items cert.now) }
{
    certificate_value(alloc, cert)?.to_vec(alloc)
}

/// Law: bytes are the text of at most one certificate. So if `from_bytes` reads the text that `to_bytes` writes, it
/// returns the same certificate, unless memory runs out.
pub fn text_has_one_certificate()
    ensures { (bytes : List ℕ) (c d : Certificate)
        → IsCertificateText bytes c → IsCertificateText bytes d → c ≡ d }
{}

/// Returns a certificate as a JSON object. The only error of this function and of the functions below is lack of
/// memory.
pub fn certificate_value(alloc: Global, cert: &Cert) -> Result<Value, AllocError>
    ensures value { IfOk result (λ v. view v ≡ written.certificate_value cert.now) }
    ensures shaped { OnOk result (IsShaped cert.now) }
{
    let mut members = common_members(alloc, cert)?;
    if cert.weights.is_own() {
        return Ok(Value::from(members));
    }
    let weights = weights_value(alloc, &cert.weights)?;
    put(&mut members, alloc, "weights", weights)?;
    Ok(Value::from(members))
}

/// Returns the members that the JSON object of each certificate has: all members except the weights.
fn common_members(alloc: Global, cert: &Cert) -> Result<Map<String, Value>, AllocError>
    ensures { IfOk result (λ ms. members_view ms.entries ≡ members_before no_members cert.now) }
{
    let conserving = sum_value(alloc, cert)?;
    let injective = injective_value(alloc, cert)?;
    let left = side_value(alloc, &cert.left)?;
    let ranks = ranks_value(alloc, cert)?;
    let right = side_value(alloc, &cert.right)?;
    let rule = rule_value(alloc, &cert.rule)?;
    let surjective = surjective_value(alloc, cert)?;
    let version = Value::from(cert.version.number());
    let mut members = Map::new(alloc);
    put(&mut members, alloc, "conserving", conserving)?;
    put(&mut members, alloc, "injective", injective)?;
    put(&mut members, alloc, "left", left)?;
    put(&mut members, alloc, "ranks", ranks)?;
    put(&mut members, alloc, "right", right)?;
    put(&mut members, alloc, "rule", rule)?;
    put(&mut members, alloc, "surjective", surjective)?;
    put(&mut members, alloc, "version", version)?;
    Ok(members)
}

/// Returns the evidence about surjectivity as JSON: sets, pairs or an orphan.
fn surjective_value(alloc: Global, cert: &Cert) -> Result<Value, AllocError>
    ensures { IfOk result (λ v. view v ≡ written.surjective_value (cert.now).surjective) }
{
    match &cert.surjective {
        SurjectivePart::Sets(sets) => {
            let sets = sets_value(alloc, sets)?;
            json!(in alloc; {"sets": sets})
        }
        SurjectivePart::Pairs(pairs) => {
            let pairs = sets_value(alloc, pairs)?;
            json!(in alloc; {"pairs": pairs})
        }
        SurjectivePart::Orphan(word) => {
            let word = word_value(alloc, word.as_slice())?;
            json!(in alloc; {"orphan": word})
        }
    }
}

/// Returns the evidence about injectivity as JSON: a window or twins.
fn injective_value(alloc: Global, cert: &Cert) -> Result<Value, AllocError>
    ensures { IfOk result (λ v. view v ≡ written.injective_value (cert.now).injective) }
{
    match &cert.injective {
        InjectivePart::Window { n, c } => json!(in alloc; {"c": *c, "n": *n}),
        InjectivePart::Twins { x, y } => {
            let x = word_value(alloc, x.as_slice())?;
            let y = word_value(alloc, y.as_slice())?;
            json!(in alloc; {"twins": [x, y]})
        }
    }
}

/// Returns the evidence about closing on a side as JSON: a look-ahead or a split.
fn side_value(alloc: Global, side: &SidePart) -> Result<Value, AllocError>
    ensures { IfOk result (λ v. view v ≡ written.side_value (side_of side.now)) }
{
    match side {
        SidePart::Ahead(n) => json!(in alloc; {"ahead": *n}),
        SidePart::Split(x, y) => {
            let x = tail_value(alloc, x)?;
            let y = tail_value(alloc, y)?;
            json!(in alloc; {"split": [x, y]})
        }
    }
}

/// Returns the evidence about conservation of the sum as JSON: a flux or a ring.
fn sum_value(alloc: Global, cert: &Cert) -> Result<Value, AllocError>
    ensures { IfOk result (λ v. view v ≡ written.sum_value (cert.now).conserving) }
{
    match &cert.conserving {
        SumPart::Flux(flux) => {
            let flux = flux_value(alloc, flux)?;
            json!(in alloc; {"flux": flux})
        }
        SumPart::Ring(ring) => {
            let ring = word_value(alloc, ring.as_slice())?;
            json!(in alloc; {"ring": ring})
        }
    }
}

/// Returns the forward and the backward claims, which are bounds of ranks, as JSON.
fn ranks_value(alloc: Global, cert: &Cert) -> Result<Value, AllocError>
    ensures { IfOk result (λ v. view v
        ≡ written.ranks_value (cert.now).forward (cert.now).backward) }
{
    let backward = claims_value(alloc, &cert.backward)?;
    let forward = claims_value(alloc, &cert.forward)?;
    json!(in alloc; {"backward": backward, "forward": forward})
}

/// Returns a list of sets or of pairs, each given by its number, as a JSON array of numbers.
fn sets_value(alloc: Global, sets: &SetList) -> Result<Value, AllocError>
    ensures { IfOk result (λ v. view v ≡ array_from (map written.whole_value sets.now)) }
{
    let sets = sets.as_slice().iter();
    let values: Vec<Value> = sets.map(|set| Value::from(*set)).collect(alloc)?;
    Ok(Value::from(values))
}

/// Returns claims as a JSON array: a number for each claim, and null for each pair of nodes without a claim.
fn claims_value(alloc: Global, claims: &RankRow) -> Result<Value, AllocError>
    ensures { IfOk result (λ v. view v ≡ array_from (map written.claim_value claims.now)) }
{
    let claims = claims.as_slice().iter();
    let values: Vec<Value> = claims.map(|claim| Value::from(*claim)).collect(alloc)?;
    Ok(Value::from(values))
}

/// Returns a flux as an array of numbers.
pub fn flux_value(alloc: Global, flux: &FluxRow) -> Result<Value, AllocError>
    ensures { IfOk result (λ v. view v ≡ array_from (map written.signed_value flux.now)) }
{
    let flows = flux.as_slice().iter();
    let values: Vec<Value> = flows.map(|flow| Value::from(*flow)).collect(alloc)?;
    Ok(Value::from(values))
}

/// Returns weights as an array of numbers.
pub fn weights_value(alloc: Global, weights: &Weights) -> Result<Value, AllocError>
    ensures { IfOk result (λ v. view v ≡ array_from (map written.whole_value weights.now)) }
{
    let weights = weights.as_slice().iter();
    let values: Vec<Value> = weights.map(|weight| Value::from(*weight)).collect(alloc)?;
    Ok(Value::from(values))
}

/// Returns a word of letters below 16 as a JSON string of hexadecimal digits.
pub fn word_value(alloc: Global, letters: &[u8]) -> Result<Value, AllocError>
    requires { IsWord most_states letters.now }
    ensures { IfOk result (λ v. view v ≡ written.word_value letters.now) }
{
    Ok(text_value(word_text(alloc, letters)?))
}

/// Returns the text of a configuration as a string.
fn tail_value(alloc: Global, tail: &Tail) -> Result<Value, AllocError>
    ensures { IfOk result (λ v. view v ≡ written.tail_value (tail.now).config) }
{
    prove!(tail.k() <= 16);
    Ok(text_value(tail_config::print(alloc, tail)?))
}

/// Returns the text of a rule as a string.
pub fn rule_value(alloc: Global, rule: &Rule) -> Result<Value, AllocError>
    ensures { IfOk result (λ v. view v ≡ string (printed_rule rule.now)) }
{
    rule.keeps_limits();
    Ok(text_value(rule_text::print(alloc, rule)?))
}

/// Returns a text as a JSON string.
fn text_value(text: Vec<u8>) -> Value
    requires { IsUtf8 text.items }
    ensures { view result ≡ string text.items }
{
    match String::from_utf8(text) {
        Ok(text) => Value::from(text),
        Err(_) => unreachable!(),
    }
}
