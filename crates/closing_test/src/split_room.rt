//! The type `SplitRoom`, which decides whether a rule closes on a side, in memory that it allocates once.

ghost use Rattle.std.specs.Prelude.{◌≡◌, ◌≤◌, ◌<◌};
ghost use Rattle.word_image.specs.LocalRules.{IsRule, most_states};
ghost use Rattle.tail_config.specs.Tails.{IsRightClosing};
ghost use Rattle.tail_config.specs.TailTexts.{IsShortTail};
ghost use Rattle.closing_test.specs.Closing.{IsRightAnswer, IsLeftAnswer, IsLeastSplitOf, closing_of, tail_over};
ghost use Rattle.closing_test.specs.declared.split_room.LentClosing.TheVariants as lent;

use crate::look_ahead::{ahead_left, ahead_right};
use crate::split::least_walks;
use least_walk::{Queue, Walker, spelled};
use pair_graph::Pairs;
use pair_rank::Ranks;
use std::alloc::{AllocError, Global};
use std::marker::Model;
use tail_config::{LentTail, TailRoom};

/// The evidence that a rule closes on a side, or that it doesn't. A `SplitRoom` lends the split.
#[derive(Debug, Drop)]
pub enum LentClosing<'r> {
    /// The rule closes, and this is its least look-ahead.
    Ahead(u16),
    /// The rule doesn't close, and this is its least normal split.
    Split(LentTail<'r>, LentTail<'r>),
}

/// The memory for the two configurations of a split and for the search of its middles, which is allocated once. In
/// contracts it is the two configurations.
#[derive(Debug, Drop)]
pub struct SplitRoom {
    // The first configuration of the split.
    x: TailRoom,
    // The second configuration of the split.
    y: TailRoom,
    // The memory of the search for middles.
    queue: Queue,
}

impl Model for SplitRoom {
    ghost use Rattle.tail_config.specs.Tails.{TailConfig};

    ghost Value = { TailConfig × TailConfig };

    ghost view = { λ r. (r.x, r.y) };
}

impl SplitRoom {
    /// Allocates the memory of a split. The only error is lack of memory.
    pub fn new(alloc: Global) -> Result<SplitRoom, AllocError> {
        Ok(SplitRoom {
            x: TailRoom::new(alloc)?,
            y: TailRoom::new(alloc)?,
            queue: Queue::new(alloc)?,
        })
    }

    /// Returns the least right look-ahead of the rule of these pairs if the rule is right-closing, and otherwise its
    /// least normal right split. The middles and periods of a split have at most 512 letters. `ranks` must be the ranks
    /// of the rule.
    pub fn right(&mut self, pairs: &Pairs, ranks: &Ranks, walker: &mut Walker) -> LentClosing<'_>
        requires { ranks.now ≡ pairs.now }
        ensures { IsRightAnswer pairs.now (closing_of result) }
    {
        if let Some(ahead) = ahead_right(pairs.rule(), ranks) {
            return LentClosing::Ahead(ahead);
        }
        self.find_split(pairs, walker);
        self.split(pairs.graph().k())
    }

    /// Returns the least left look-ahead of the rule of these pairs if the rule is left-closing, and otherwise its least
    /// normal left split. The middles and periods of a split have at most 512 letters. `ranks` must be the ranks of the
    /// rule.
    pub fn left(&mut self, pairs: &Pairs, ranks: &Ranks, walker: &mut Walker) -> LentClosing<'_>
        requires { ranks.now ≡ pairs.now }
        ensures { IsLeftAnswer pairs.now (closing_of result) }
    {
        if let Some(ahead) = ahead_left(pairs.rule(), ranks) {
            return LentClosing::Ahead(ahead);
        }
        self.find_split(&Pairs::of(&pairs.rule().reflect()), walker);
        self.x.mirror();
        self.y.mirror();
        self.split(pairs.graph().k())
    }

    /// Finds the least normal right split of a rule that isn't right-closing.
    fn find_split(&mut self, pairs: &Pairs, walker: &mut Walker)
        requires { ¬ IsRightClosing pairs.now }
        ensures split { IsLeastSplitOf pairs.now (tail_over pairs.now self.new.0) (tail_over pairs.now self.new.1) }
        ensures rule { IsRule pairs.now }
    {
        pairs.rule().keeps_limits();
        let Some(walks) = least_walks(pairs, walker, &mut self.queue) else {
            unreachable!()
        };
        let middles = spelled(walks.middle.as_slice());
        let periods = spelled(walks.period.as_slice());
        self.x.set(&[0], middles.x.as_slice(), periods.x.as_slice());
        self.y.set(&[0], middles.y.as_slice(), periods.y.as_slice());
    }

    /// Lends the split, whose letters must be below k. The number k is from 2 to 16.
    fn split(&self, k: u8) -> LentClosing<'_>
        requires least { 2 ≤ k }
        requires most { k ≤ most_states }
        requires first { IsShortTail k self.now.0 }
        requires second { IsShortTail k self.now.1 }
        ensures { result ≡ lent.Split (record { states = k; config = self.now.0 }) (record { states = k; config = self.now.1 }) }
    {
        LentClosing::Split(self.x.tail(k), self.y.tail(k))
    }
}
