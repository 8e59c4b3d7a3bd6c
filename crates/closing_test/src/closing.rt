//! Decides whether a rule closes on a side, with evidence: a look-ahead if it does, and a split if it doesn't.
//!
//! A right look-ahead is a number n for which m - 1 letters of a word and the next n letters of its image determine the
//! next letter of the word. A right split consists of two different configurations with the same image that agree far
//! to the left. A Tail is a configuration with a left period, a middle and a right period.

ghost use Rattle.std.specs.Prelude.{◌≡◌, IfOk};
ghost use Rattle.closing_test.specs.Closing.{IsRightAnswer, IsLeftAnswer, closing_of};

use crate::split_room::{LentClosing, SplitRoom};
use least_walk::Walker;
use pair_graph::Pairs;
use pair_rank::Ranks;
use std::alloc::{AllocError, Global};
use tail_config::Tail;
use word_image::Rule;

/// The evidence that a rule closes on a side, or that it doesn't.
#[derive(Debug, Drop)]
pub enum Closing {
    /// The rule closes, and this is its least look-ahead.
    Ahead(u16),
    /// The rule doesn't close, and this is its least normal split.
    Split(Tail, Tail),
}

/// Returns the least right look-ahead if the rule is right-closing, and otherwise its least normal right split. The
/// split consists of two Tails whose middles and periods have at most 512 letters. `ranks` must be the ranks of the
/// rule. The only error is lack of memory.
pub fn right(
    alloc: Global,
    rule: &Rule,
    ranks: &Ranks,
    walker: &mut Walker,
) -> Result<Closing, AllocError>
    requires { ranks.now ≡ rule.now }
    ensures { IfOk result (IsRightAnswer rule.now) }
{
    let mut room = SplitRoom::new(alloc)?;
    owned(alloc, &room.right(&Pairs::of(rule), ranks, walker))
}

/// Returns the least left look-ahead if the rule is left-closing, and otherwise its least normal left split. The split
/// consists of two Tails whose middles and periods have at most 512 letters. `ranks` must be the ranks of the rule. The
/// only error is lack of memory.
pub fn left(
    alloc: Global,
    rule: &Rule,
    ranks: &Ranks,
    walker: &mut Walker,
) -> Result<Closing, AllocError>
    requires { ranks.now ≡ rule.now }
    ensures { IfOk result (IsLeftAnswer rule.now) }
{
    let mut room = SplitRoom::new(alloc)?;
    owned(alloc, &room.left(&Pairs::of(rule), ranks, walker))
}

/// Copies the evidence into memory of its own. The only error is lack of memory.
fn owned(alloc: Global, found: &LentClosing) -> Result<Closing, AllocError>
    ensures { IfOk result (λ closing. closing ≡ closing_of found.now) }
{
    match found {
        LentClosing::Ahead(ahead) => Ok(Closing::Ahead(*ahead)),
        LentClosing::Split(x, y) => Ok(Closing::Split(x.to_tail(alloc)?, y.to_tail(alloc)?)),
    }
}
