//! Functions that call the public functions of `cert_format` and `cert_check`, and that name the parts of
//! certificates, of verdicts and of refusals.

use cert_check::{Refusal, Side, SplitCause, TwinCause, Verdicts};
use cert_format::{
    Cert, CertFault, CertVersion, InjectivePart, Key, ShapeFault, SidePart, SumPart, SurjectivePart,
};
use rule_text::TextFault;
use std::alloc::{AllocError, Global};
use tail_config::Tail;
use word_image::{FluxRow, RankRow, Rule, SetList, Weights, Word};

/// Returns the bytes of the text of a certificate. The only error is lack of memory.
pub fn write(alloc: Global, cert: &Cert) -> Result<Vec<u8>, AllocError> {
    cert_format::to_bytes(alloc, cert)
}

/// Returns the certificate whose text the bytes are, or the reason why none could be read.
pub fn read(alloc: Global, bytes: &[u8]) -> Result<Cert, CertFault> {
    cert_format::from_bytes(alloc, bytes)
}

/// Returns the verdicts of the certificate whose text the bytes are, or the reason why the judge refuses the bytes.
pub fn judge(alloc: Global, bytes: &[u8]) -> Result<Verdicts, Refusal> {
    cert_check::judge(alloc, bytes)
}

/// Returns the version, the rule, the weights, the forward claims and the backward claims of a certificate.
pub fn head(cert: &Cert) -> (&CertVersion, &Rule, &Weights, &RankRow, &RankRow) {
    (
        &cert.version,
        &cert.rule,
        &cert.weights,
        &cert.forward,
        &cert.backward,
    )
}

/// Returns the evidence of a certificate for each question: surjective, injective, closing on the right, closing on
/// the left, and conserving.
pub fn evidence(cert: &Cert) -> (&SurjectivePart, &InjectivePart, [&SidePart; 2], &SumPart) {
    (
        &cert.surjective,
        &cert.injective,
        [&cert.right, &cert.left],
        &cert.conserving,
    )
}

/// Returns the rule and the weights of these verdicts, and the five answers: surjective, injective, right, left and
/// conserving.
pub fn verdicts(of: &Verdicts) -> (&Rule, &Weights, [bool; 5]) {
    (
        &of.rule,
        &of.weights,
        [
            of.surjective,
            of.injective,
            of.right,
            of.left,
            of.conserving,
        ],
    )
}

/// Makes the two kinds of evidence of versions 1 and 2 about surjectivity: sets of nodes for a yes, and an orphan for
/// a no.
pub fn surjective_parts(sets: SetList, orphan: Word) -> [SurjectivePart; 2] {
    [SurjectivePart::Sets(sets), SurjectivePart::Orphan(orphan)]
}

/// Makes the two kinds of evidence about injectivity: the window (n, c) for a yes, and twins for a no.
pub fn injective_parts(n: u16, c: u16, x: Word, y: Word) -> [InjectivePart; 2] {
    [
        InjectivePart::Window { n, c },
        InjectivePart::Twins { x, y },
    ]
}

/// Makes the two kinds of evidence about closing on a side: a look-ahead for a yes, and a split for a no.
pub fn side_parts(ahead: u16, first: Tail, second: Tail) -> [SidePart; 2] {
    [SidePart::Ahead(ahead), SidePart::Split(first, second)]
}

/// Makes the two kinds of evidence about conserving: a flux for a yes, and a ring for a no.
pub fn sum_parts(flux: FluxRow, ring: Word) -> [SumPart; 2] {
    [SumPart::Flux(flux), SumPart::Ring(ring)]
}

/// Returns all versions of certificates, and all keys that name a part of a certificate with the wrong shape.
pub fn keys() -> ([CertVersion; 3], [Key; 11]) {
    (
        [CertVersion::One, CertVersion::Two, CertVersion::Three],
        [
            Key::Top,
            Key::Version,
            Key::Rule,
            Key::Surjective,
            Key::Injective,
            Key::Right,
            Key::Left,
            Key::Conserving,
            Key::Weights,
            Key::Ranks,
            Key::Unknown,
        ],
    )
}

/// Returns each kind of fault that bytes can have if they aren't the text of a certificate.
pub fn shape_faults(version: u64, key: Key, fault: TextFault) -> [ShapeFault; 4] {
    [
        ShapeFault::NotJson,
        ShapeFault::Version(version),
        ShapeFault::Shape(key),
        ShapeFault::Rule(fault),
    ]
}

/// Returns each kind of fault with which `read` can fail.
pub fn cert_faults(fault: ShapeFault) -> [CertFault; 2] {
    [CertFault::Format(fault), CertFault::Memory(AllocError)]
}

/// Returns a refusal for a fault of the text, and a refusal for each kind of condition on claims, on listed sets and on
/// listed pairs. A claim is a bound of the rank of a pair of nodes.
pub fn list_refusals(
    fault: ShapeFault,
    side: Side,
    pair: u16,
    place: usize,
    letter: u8,
) -> [Refusal; 8] {
    [
        Refusal::Format(fault),
        Refusal::Rank(side, pair),
        Refusal::NoFull,
        Refusal::EmptySet(place),
        Refusal::NotClosed(place, letter),
        Refusal::NoFirst(pair),
        Refusal::Diagonal(place),
        Refusal::Leaves(place, letter, letter),
    ]
}

/// Returns a refusal of each kind that `list_refusals` doesn't have.
pub fn refusals(twins: TwinCause, split: SplitCause, pair: u16) -> [Refusal; 8] {
    [
        Refusal::Orphan,
        Refusal::Window(pair),
        Refusal::Twins(twins),
        Refusal::Ahead(Side::Right, pair),
        Refusal::Split(Side::Left, split),
        Refusal::Flux(pair),
        Refusal::Ring,
        Refusal::Memory(AllocError),
    ]
}

/// Returns each reason why two words aren't twins, and each reason why two configurations aren't a split.
pub fn causes() -> ([TwinCause; 3], [SplitCause; 3]) {
    (
        [TwinCause::Length, TwinCause::Same, TwinCause::Image],
        [SplitCause::Same, SplitCause::Apart, SplitCause::Image],
    )
}
