//! Laws about the bytes that are accepted or refused as certificates. Each law is the contract of a function that does
//! nothing.
ghost use Rattle.std.specs.Prelude.{◌≡◌, ℕ, List};
ghost use Rattle.cert_values.specs.Certificates.{Certificate};
ghost use Rattle.cert_conditions.specs.Conditions.{MeetsConditions};
ghost use Rattle.cert_conditions.specs.CertificateVersions.{in_version};
ghost use Rattle.cert_conditions.specs.Accepted.{IsAccepted, AreTrue};
ghost use Rattle.cert_conditions.specs.Refusals.{IsRefusal};

use crate::refusal::Refusal;
use crate::verdicts::Verdicts;
use cert_values::CertVersion;

/// Law: the same bytes are accepted with at most one list of verdicts, or refused for at most one reason. They are
/// never both accepted and refused. The contract of `judge` says that one of the two happens unless there is no memory.
pub fn one_answer()
    ensures accepted { (bytes : List ℕ) (v w : Verdicts) → IsAccepted bytes v → IsAccepted bytes w → v ≡ w }
    ensures refused { (bytes : List ℕ) (f g : Refusal) → IsRefusal bytes f → IsRefusal bytes g → f ≡ g }
    ensures never_both { (bytes : List ℕ) (v : Verdicts) (f : Refusal) → IsAccepted bytes v → ¬ IsRefusal bytes f }
{}

/// Law: if bytes are accepted with some verdicts, these verdicts are true. This doesn't depend on who accepts the
/// bytes.
pub fn accepted_is_true()
    ensures { (bytes : List ℕ) (v : Verdicts) → IsAccepted bytes v → AreTrue v }
{}

/// Law: if a certificate meets the conditions of its version, it also meets the conditions of version 2 and of
/// version 3.
pub fn later_versions_ask_no_more()
    ensures two { (c : Certificate) → MeetsConditions c → MeetsConditions (in_version CertVersion.Two c) }
    ensures three { (c : Certificate) → MeetsConditions c → MeetsConditions (in_version CertVersion.Three c) }
{}
