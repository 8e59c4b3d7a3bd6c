//! The function `judge`, which goes from the bytes of a certificate to its verdicts.

ghost use Rattle.std.specs.Prelude.{◌≡◌, ◌⊎◌, Ok, Err, alloc_error, IfOk, IfErr};
ghost use Rattle.cert_conditions.specs.Accepted.{IsAccepted, AreTrue};
ghost use Rattle.cert_conditions.specs.Refusals.{IsRefusal};

use crate::conditions::check_all;
use cert_conditions::{Refusal, Verdicts};
use cert_format::{CertFault, from_bytes};
use std::alloc::Global;

/// Returns the verdicts of the certificate whose text the bytes are, if it meets all conditions. Then each verdict is
/// true of its rule. Otherwise returns the first fault of the text, or the first condition that the certificate
/// doesn't meet. It returns `Memory` if there isn't enough memory to read the text.
pub fn judge(alloc: Global, bytes: &[u8]) -> Result<Verdicts, Refusal>
    ensures accepted { IfOk result (IsAccepted bytes.now) }
    ensures verdicts { IfOk result AreTrue }
    ensures refused { IfErr result (λ f. (f ≡ Refusal.Memory alloc_error) ⊎ IsRefusal bytes.now f) }

    ensures every_accepted { (v : Verdicts) → IsAccepted bytes.now v → (result ≡ Ok v) ⊎ (result ≡ Err (Refusal.Memory alloc_error)) }
    ensures every_refusal { (f : Refusal) → IsRefusal bytes.now f → (result ≡ Err f) ⊎ (result ≡ Err (Refusal.Memory alloc_error)) }
{
    match from_bytes(alloc, bytes) {
        Ok(cert) => {
            check_all(&cert)?;
            Ok(Verdicts::of(&cert))
        }
        Err(CertFault::Format(fault)) => Err(Refusal::Format(fault)),
        Err(CertFault::Memory(fault)) => Err(Refusal::Memory(fault)),
    }
}
