//! Splits, stored as two walks of pairs of nodes. A split consists of two different configurations with the same image.
//! The states of the marked graph are the pairs of nodes, without a mark and with it. A step on two different letters
//! sets the mark.

ghost use Rattle.std.specs.Prelude.{◌≡◌, ◌*◌, ◌+◌, ◌<◌, ◌≤◌, ◌↔◌, IsTrue, IfSome, MatchOption, length};
ghost use Rattle.std.specs.declared.cmp.Ordering.TheVariants.{Greater};
ghost use Rattle.least_walk.specs.Queues.{most_steps};
ghost use Rattle.word_image.specs.Graphs.{pair_count};
ghost use Rattle.tail_config.specs.Splits.{splits_cmp};

use least_walk::{MOST_STEPS, WalkTree, Walker};
use pair_graph::Pairs;
use short_words::ShortWord;

/// Two walks, which form two Tails with the same image. Each step is a pair of letters (a, b), stored as a * 16 + b.
/// The first Tail has the letters a, and the second Tail the letters b. Both have the left period 0, the letters of the
/// first walk as middle, and the letters of the second walk as right period.
#[derive(Debug, Drop)]
pub struct Walks {
    /// The walk from the pair of the node of zeros with itself, without a mark, to a state of the marked graph.
    pub middle: ShortWord,
    /// The walk from the state at which `middle` ends back to the pair of nodes of this state, with the mark.
    pub period: ShortWord,
    ghost short_middle: { length middle ≤ most_steps },
    ghost short_period: { length period ≤ most_steps },
}

impl Walks {
    ghost use Rattle.closing_test.specs.Walks.{ComesBefore, IsMostAfter, IsNoneBefore, IsPeriodAt, AreEarlier, split_by};

    /// Returns the number of steps of both walks together.
    fn letters(&self) -> usize
        ensures { result ≡ length self.now.middle + length self.now.period }
    {
        self.middle.len() + self.period.len()
    }

    /// Returns whether the split of these walks is greater than the split of the walks `other`.
    fn is_after(&self, other: &Walks) -> bool
        ensures { IsTrue result ↔ (splits_cmp (split_by self.now) (split_by other.now) ≡ Greater) }
    {
        let (middle, other_middle) = (self.middle.as_slice(), other.middle.as_slice());
        let (period, other_period) = (self.period.as_slice(), other.period.as_slice());
        self.letters()
            .cmp(&other.letters())
            .then(middle.len().cmp(&other_middle.len()))
            .then(middle.cmp(other_middle))
            .then(period.cmp(other_period))
            .is_gt()
    }

    /// Returns the walks of the least normal split that has the marked pair `state` between its two walks. Returns None
    /// if there is no such split, or if it isn't less than `best`, the least split so far. `middles` has the least
    /// walks from the pair of the node of zeros with itself.
    pub fn earlier(
        pairs: &Pairs,
        walker: &mut Walker,
        middles: &WalkTree,
        state: u16,
        best: &Option<Walks>,
    ) -> Option<Walks>
        requires middles { middles.now.source ≡ record { rule = pairs.now; start = 0; most = most_steps } }
        requires state { state < 2 * pair_count pairs.now }
        ensures { MatchOption result (IsNoneBefore pairs.now state best.now) (AreEarlier pairs.now state best.now) }
    {
        let period = Walks::period(pairs, walker, middles, state, best)?;
        Walks::at(pairs, middles, state, period, best)
    }

    /// Returns the least walk from the marked pair `state` back to its pair of nodes, with the mark. Returns None if
    /// there is no such walk, or if no split with it can be less than `best`, the least split so far.
    fn period<'w>(
        pairs: &Pairs,
        walker: &'w mut Walker,
        middles: &WalkTree,
        state: u16,
        best: &Option<Walks>,
    ) -> Option<&'w [u8]>
        requires middles { middles.now.source ≡ record { rule = pairs.now; start = 0; most = most_steps } }
        requires state { state < 2 * pair_count pairs.now }
        ensures least { MatchOption result (IsNoneBefore pairs.now state best.now) (λ period. IsPeriodAt pairs.now state period.now) }
        ensures most { IfSome result (λ period. length period.now ≤ most_steps) }
    {
        let steps = middles.steps_to(state)?;
        let most = Walks::most_steps(best, steps);
        if most == 0 {
            return None;
        }
        let count = pairs.count();
        let period = walker.walk_within(pairs, state, state % count + count, most)?;
        Some(period)
    }

    /// Returns the walks of the least normal split that has the marked pair `state` between its two walks. `period` is
    /// the second walk. Returns None if the split isn't less than `best`, the least split so far.
    fn at(
        pairs: &Pairs,
        middles: &WalkTree,
        state: u16,
        period: &[u8],
        best: &Option<Walks>,
    ) -> Option<Walks>
        requires middles { middles.now.source ≡ record { rule = pairs.now; start = 0; most = most_steps } }
        requires state { state < 2 * pair_count pairs.now }
        requires period { IsPeriodAt pairs.now state period.now }
        requires most { length period.now ≤ most_steps }
        ensures { MatchOption result (IsNoneBefore pairs.now state best.now) (AreEarlier pairs.now state best.now) }
    {
        let middle = middles.walk_to(state)?;
        let found = Walks {
            middle,
            period: ShortWord::of(period),
        };
        if found.is_before(best) {
            Some(found)
        } else {
            None
        }
    }

    /// Returns whether the split of these walks is less than `best`, the least split so far.
    fn is_before(&self, best: &Option<Walks>) -> bool
        ensures { IsTrue result ↔ ComesBefore (split_by self.now) best.now }
    {
        match best {
            Some(best) => best.is_after(self),
            None => true,
        }
    }

    /// Returns the greatest number of steps of a period that can still make a split less than `best`, the least split
    /// so far. `middle` is the number of steps before the period. Of two splits with the same number of steps, the
    /// split with the longer middle is greater.
    fn most_steps(best: &Option<Walks>, middle: usize) -> usize
        ensures { MatchOption best.now (result ≡ most_steps) (λ walks. IsMostAfter walks middle result) }
    {
        let Some(best) = best else {
            return MOST_STEPS;
        };
        let most = best.letters().saturating_sub(middle);
        if best.middle.len() < middle {
            most.saturating_sub(1)
        } else {
            most
        }
    }
}
