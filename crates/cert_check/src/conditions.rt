//! The conditions on a certificate, and the function that checks them in their order.

ghost use Rattle.std.specs.Prelude.{MatchResult};
ghost use Rattle.cert_conditions.specs.Conditions.{MeetsConditions};
ghost use Rattle.cert_conditions.specs.Refusals.{IsFirstUnmet};
ghost use Rattle.cert_check.specs.Checks.{IsChecked};

use crate::aheads::side_ahead;
use crate::claims::side_claims;
use crate::orphans::orphan_read;
use crate::pairs::{firsts_listed, off_diagonal, pairs_closed};
use crate::sets::{closed, full_listed, none_empty};
use crate::splits::side_split;
use crate::sums::{flux_flows, ring_lossy};
use crate::twins::twins_alike;
use crate::windows::window_claims;
use cert_conditions::{Condition, Refusal};
use cert_values::Cert;
use word_image::Side;

/// All conditions, in the order in which they are checked.
const CONDITIONS: [Condition; 17] = [
    Condition::SideClaims(Side::Right),
    Condition::SideClaims(Side::Left),
    Condition::FullListed,
    Condition::NoneEmpty,
    Condition::Closed,
    Condition::FirstsListed,
    Condition::OffDiagonal,
    Condition::PairsClosed,
    Condition::OrphanRead,
    Condition::WindowClaims,
    Condition::TwinsAlike,
    Condition::SideAhead(Side::Right),
    Condition::SideSplit(Side::Right),
    Condition::SideAhead(Side::Left),
    Condition::SideSplit(Side::Left),
    Condition::FluxFlows,
    Condition::RingLossy,
];

/// Checks that a certificate meets all conditions. Otherwise returns the refusal for the first condition that it
/// doesn't meet.
pub fn check_all(cert: &Cert) -> Result<(), Refusal>
    ensures { MatchResult result (λ _. MeetsConditions cert.now) (IsFirstUnmet cert.now) }
{
    for condition in &CONDITIONS {
        check_condition(*condition, cert)?;
    }
    Ok(())
}

/// Checks that a certificate meets this condition. Otherwise returns the refusal that belongs to it.
fn check_condition(condition: Condition, cert: &Cert) -> Result<(), Refusal>
    ensures { IsChecked cert.now condition result }
{
    match condition {
        Condition::SideClaims(side) => side_claims(cert, side),
        Condition::FullListed => full_listed(cert),
        Condition::NoneEmpty => none_empty(cert),
        Condition::Closed => closed(cert),
        Condition::FirstsListed => firsts_listed(cert),
        Condition::OffDiagonal => off_diagonal(cert),
        Condition::PairsClosed => pairs_closed(cert),
        Condition::OrphanRead => orphan_read(cert),
        Condition::WindowClaims => window_claims(cert),
        Condition::TwinsAlike => twins_alike(cert),
        Condition::SideAhead(side) => side_ahead(cert, side),
        Condition::SideSplit(side) => side_split(cert, side),
        Condition::FluxFlows => flux_flows(cert),
        Condition::RingLossy => ring_lossy(cert),
    }
}
