//! Functions that call the public functions of `inverse_window`, `closing_test`, `flux_conserve` and `eden_law`.

ghost use Rattle.std.specs.Prelude.{◌≡◌, length};

use closing_test::Closing;
use eden_law::Erased;
use flux_conserve::{Keeping, SmallRing};
use inverse_window::{TwinPair, WindowAt};
use least_walk::Walker;
use pair_graph::Pairs;
use pair_rank::Ranks;
use std::alloc::{AllocError, Global};
use tail_config::Tail;
use word_image::{Rule, SetList, Weights, Word};

/// Returns the least determined window (n, c), or None if the rule isn't injective.
pub fn window(rule: &Rule, ranks: &Ranks) -> Option<(u16, u16)>
    requires { ranks.now ≡ rule.now }
{
    match inverse_window::window(rule, ranks) {
        Some(WindowAt { n, c }) => Some((n, c)),
        None => None,
    }
}

/// Returns the least twins, two words whose rings have the same image, or None if the rule is injective.
pub fn twins(
    alloc: Global,
    rule: &Rule,
    walker: &mut Walker,
) -> Result<Option<(Word, Word)>, AllocError> {
    match inverse_window::twins(alloc, rule, walker)? {
        Some(TwinPair { x, y }) => Ok(Some((x, y))),
        None => Ok(None),
    }
}

/// Returns the least look-ahead on the right and the least look-ahead on the left. Each is None if the rule doesn't
/// close on this side.
pub fn look_aheads(rule: &Rule, ranks: &Ranks) -> (Option<u16>, Option<u16>)
    requires { ranks.now ≡ rule.now }
{
    (
        closing_test::ahead_right(rule, ranks),
        closing_test::ahead_left(rule, ranks),
    )
}

/// Returns the least look-ahead on the right, or a split if the rule isn't right-closing.
pub fn right(
    alloc: Global,
    rule: &Rule,
    ranks: &Ranks,
    walker: &mut Walker,
) -> Result<Closing, AllocError>
    requires { ranks.now ≡ rule.now }
{
    closing_test::right(alloc, rule, ranks, walker)
}

/// Returns the least look-ahead on the left, or a split if the rule isn't left-closing.
pub fn left(
    alloc: Global,
    rule: &Rule,
    ranks: &Ranks,
    walker: &mut Walker,
) -> Result<Closing, AllocError>
    requires { ranks.now ≡ rule.now }
{
    closing_test::left(alloc, rule, ranks, walker)
}

/// Makes both kinds of results of the tests for closing: a look-ahead, and a split.
pub fn closings(ahead: u16, first: Tail, second: Tail) -> [Closing; 2] {
    [Closing::Ahead(ahead), Closing::Split(first, second)]
}

/// Returns the flux of a conserving rule, or as the error a ring whose image has another sum.
pub fn conserve(rule: &Rule, weights: &Weights) -> Result<[i32; 16], SmallRing>
    requires { length weights.now ≡ rule.now.states }
{
    match flux_conserve::conserve(rule, weights) {
        Keeping::Flux(flux) => Ok(flux),
        Keeping::Ring(ring) => Err(ring),
    }
}

/// Returns the letters of a ring.
pub fn ring(ring: &SmallRing) -> &[u8] {
    ring.letters()
}

/// Returns the least erasable pair, or None if the rule is surjective. An erasable pair is two different words of the same
/// length that can replace each other in any configuration without a change of the image.
pub fn erasable(
    alloc: Global,
    rule: &Rule,
    walker: &mut Walker,
) -> Result<Option<(Word, Word)>, AllocError> {
    match eden_law::erasable(alloc, rule, walker)? {
        Some(Erased { x, y }) => Ok(Some((x, y))),
        None => Ok(None),
    }
}

/// Returns the list of all pairs of nodes to which two walks with equal labels lead that left one node by different
/// letters.
pub fn reached(alloc: Global, pairs: &Pairs) -> Result<SetList, AllocError> {
    eden_law::reached(alloc, pairs)
}
