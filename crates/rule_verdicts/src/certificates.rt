//! The certificate of a rule: the parts of its report in memory of their own, and what a judge needs to check them. A
//! node is a word of m - 1 letters, and a rank tells how long walks with equal labels can be that begin or end at two
//! nodes.
ghost use Rattle.std.specs.Prelude.{◌≡◌, ℕ, ◌≤◌, All, length, true, IfOk, OnOk};
ghost use Rattle.word_image.specs.LocalRules.{IsRule};
ghost use Rattle.word_image.specs.Weights.{AreWeights};
ghost use Rattle.word_image.specs.Words.{IsSurjective};
ghost use Rattle.word_image.specs.Families.{IsCoverList};
ghost use Rattle.cert_values.specs.Versions.{names_weights};
ghost use Rattle.cert_values.specs.Parts as parts;
ghost use Rattle.certificate_laws.specs.LeastEvidence.{IsOrphanPart};
ghost use Rattle.certificate_laws.specs.WrittenCertificates.{HasWrittenParts, orphan_of, IsListPart};
ghost use Rattle.rule_verdicts.specs.Reports.{AreOver, injective_of, side_in, sum_of};

use crate::report::{Injectivity, report_of_pairs};
use crate::report_room::ReportRoom;
use cert_values::{Cert, CertVersion, InjectivePart, SidePart, SumPart, SurjectivePart};
use closing_test::LentClosing;
use debruijn::Graph;
use eden_law::reached;
use flux_conserve::Keeping;
use orphan_search::Search;
use pair_graph::Pairs;
use pair_rank::Ranks;
use short_words::LentWord;
use std::alloc::{AllocError, Global};
use word_image::{FluxRow, Rule, SetList, Side, Weights, Word};

/// Makes the certificate of this version, which is 2 or 3, for a rule and these weights of its letters. It has the least
/// evidence and the exact ranks of all pairs of nodes. If the rule is surjective, it also has a list that proves it: the
/// cover list in version 2, or the reached pairs in version 3. The only error is lack of memory.
pub fn certificate(
    alloc: Global,
    room: &mut ReportRoom,
    version: CertVersion,
    rule: &Rule,
    weights: &Weights,
) -> Result<Cert, AllocError>
    requires version { names_weights version ≡ true }
    requires weights { length weights.now ≡ rule.now.states }
    ensures accepted { OnOk result (IsRule rule.now) }
    ensures weights { OnOk result (AreWeights rule.now.states weights.now) }
    ensures parts { IfOk result (HasWrittenParts version rule.now weights.now) }
{
    rule.keeps_limits();
    have_eight_bits(weights.as_slice());
    let pairs = Pairs::of(rule);
    let ranks = Ranks::from_pairs(&pairs);
    let report = report_of_pairs(room, &pairs, &ranks, weights);
    let surjective = surjective_part(alloc, version, &pairs, &report.orphan)?;
    let injective = injective_part(alloc, &report.injective)?;
    let right = side_part(alloc, &report.right)?;
    let left = side_part(alloc, &report.left)?;
    let conserving = sum_part(alloc, rule, &report.conserving)?;
    let forward = ranks.row(alloc, Side::Right)?;
    Ok(Cert {
        version,
        rule: *rule,
        surjective,
        injective,
        right,
        left,
        conserving,
        weights: *weights,
        forward,
        backward: ranks.row(alloc, Side::Left)?,
    })
}

/// Does nothing. Its contract states that each byte is at most 255, as weights must be.
fn have_eight_bits(bytes: &[u8])
    ensures { All (λ w. w ≤ 255) bytes.now }
{
    let _bytes = bytes;
}

/// Returns the part of a certificate about surjectivity: the least orphan, or a list that proves that the rule is
/// surjective. The certificate has this version, and the rule has these pairs of nodes. `orphan` is the least orphan of
/// the rule, or None if the rule is surjective.
fn surjective_part(
    alloc: Global,
    version: CertVersion,
    pairs: &Pairs,
    orphan: &Option<LentWord>,
) -> Result<SurjectivePart, AllocError>
    requires version { names_weights version ≡ true }
    requires orphan { IsOrphanPart pairs.now orphan.now }
    ensures orphan { IfOk result (λ part. IsOrphanPart pairs.now (orphan_of (parts.surjective_of part))) }
    ensures list { IfOk result (λ part. IsListPart version pairs.now (parts.surjective_of part)) }
{
    match orphan {
        Some(letters) => Ok(SurjectivePart::Orphan(word(alloc, letters.as_slice())?)),
        None => list_part(alloc, version, pairs),
    }
}

/// Returns the evidence that a rule is surjective. In version 2 of certificates it is the cover list, which has sets
/// of nodes. In version 3 it is the list of the reached pairs of nodes.
fn list_part(
    alloc: Global,
    version: CertVersion,
    pairs: &Pairs,
) -> Result<SurjectivePart, AllocError>
    requires version { names_weights version ≡ true }
    requires surjective { IsSurjective pairs.now }
    ensures orphan { IfOk result (λ part. IsOrphanPart pairs.now (orphan_of (parts.surjective_of part))) }
    ensures list { IfOk result (λ part. IsListPart version pairs.now (parts.surjective_of part)) }
{
    if version.lists_pairs() {
        return Ok(SurjectivePart::Pairs(reached(alloc, pairs)?));
    }
    Ok(SurjectivePart::Sets(covers(alloc, pairs.graph())?))
}

/// Returns the cover list of a surjective rule. A word leads to the set of the last m - 1 letters of its preimages. The
/// list has the set of all nodes, and each other of these sets that contains no other one.
fn covers(alloc: Global, graph: &Graph) -> Result<SetList, AllocError>
    requires { IsSurjective graph.now }
    ensures { IfOk result (IsCoverList graph.now) }
{
    let mut search = Search::new(alloc)?;
    search.run_over(graph);
    Ok(SetList::of(search.cover().to_vec(alloc)?))
}

/// Returns the evidence about injectivity as a part of a certificate.
fn injective_part(alloc: Global, found: &Injectivity) -> Result<InjectivePart, AllocError>
    ensures { IfOk result (λ part. parts.injective_of part ≡ injective_of found.now) }
{
    match found {
        Injectivity::Window { n, c } => Ok(InjectivePart::Window { n: *n, c: *c }),
        Injectivity::Twins(pair) => Ok(InjectivePart::Twins {
            x: word(alloc, pair.x.as_slice())?,
            y: word(alloc, pair.y.as_slice())?,
        }),
    }
}

/// Returns the evidence about a side as a part of a certificate.
fn side_part(alloc: Global, found: &LentClosing) -> Result<SidePart, AllocError>
    ensures side { IfOk result (λ part. parts.side_of part ≡ side_in found.now) }
    ensures over { (k : ℕ) → AreOver k found.now → IfOk result (parts.IsOver k) }
{
    match found {
        LentClosing::Ahead(n) => Ok(SidePart::Ahead(*n)),
        LentClosing::Split(x, y) => Ok(SidePart::Split(x.to_tail(alloc)?, y.to_tail(alloc)?)),
    }
}

/// Returns the evidence about the sum of weights under this rule as a part of a certificate.
fn sum_part(alloc: Global, rule: &Rule, found: &Keeping) -> Result<SumPart, AllocError>
    ensures { IfOk result (λ part. parts.sum_of part ≡ sum_of rule.now found.now) }
{
    match found {
        Keeping::Flux(flows) => {
            let row = flows[..usize::from(rule.nodes())].to_vec(alloc)?;
            Ok(SumPart::Flux(FluxRow::of(row)))
        }
        Keeping::Ring(ring) => Ok(SumPart::Ring(word(alloc, ring.letters())?)),
    }
}

/// Returns these letters as a word in memory of its own.
fn word(alloc: Global, letters: &[u8]) -> Result<Word, AllocError>
    ensures { IfOk result (λ word. word ≡ letters.now) }
{
    Ok(Word::of(letters.to_vec(alloc)?))
}
