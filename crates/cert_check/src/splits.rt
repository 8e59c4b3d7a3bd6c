//! Checks a split: two different configurations that share an image and agree far out on one side.

ghost use Rattle.std.specs.Prelude.{◌≡◌, ◌↔◌, IsTrue, MatchOption};
ghost use Rattle.tail_config.specs.Tails.{Different, ShareImage};
ghost use Rattle.cert_conditions.specs.Refusals.{IsSplitBreach};
ghost use Rattle.cert_check.specs.Checks.{IsChecked};
ghost use Rattle.cert_conditions.specs.Sides.{AgreeBehind};

use crate::aheads::part_on;
use cert_conditions::{Condition, Refusal, SplitCause};
use cert_values::{Cert, SidePart};
use tail_config::{Tail, agree_left, agree_right, differ, share};
use word_image::{Rule, Side};

/// Checks that the two configurations of a split of this side differ, agree on the other side and share an image.
/// Otherwise returns a refusal that names the first of these three conditions that isn't met.
pub fn side_split(cert: &Cert, side: Side) -> Result<(), Refusal>
    ensures { IsChecked cert.now (Condition.SideSplit side) result }
{
    let SidePart::Split(x, y) = part_on(cert, side) else {
        return Ok(());
    };
    match lacks(&cert.rule, side, x, y) {
        Some(cause) => Err(Refusal::Split(side, cause)),
        None => Ok(()),
    }
}

/// Returns the first reason why two configurations aren't a split of this side, or None if they are one.
fn lacks(rule: &Rule, side: Side, x: &Tail, y: &Tail) -> Option<SplitCause>
    requires first { x.now.states ≡ rule.now.states }
    requires second { y.now.states ≡ rule.now.states }
    ensures { MatchOption result
        (Different x.now.config y.now.config × AgreeBehind side x.now.config y.now.config × ShareImage rule.now x.now.config y.now.config)
        (IsSplitBreach rule.now (AgreeBehind side) x.now.config y.now.config) }
{
    if differ(x, y).is_none() {
        return Some(SplitCause::Same);
    }
    if !agree_behind(side, x, y) {
        return Some(SplitCause::Apart);
    }
    if !share(rule, x, y) {
        return Some(SplitCause::Image);
    }
    None
}

/// Returns whether two configurations agree far out on the side opposite to this one.
fn agree_behind(side: Side, x: &Tail, y: &Tail) -> bool
    ensures { IsTrue result ↔ AgreeBehind side x.now.config y.now.config }
{
    match side {
        Side::Right => agree_left(x, y),
        Side::Left => agree_right(x, y),
    }
}
