//! The type `ReportRoom`: the memory in which reports find their long words.

use closing_test::SplitRoom;
use least_walk::Walker;
use orphan_search::Search;
use short_words::{ShortPair, ShortWord};
use std::alloc::{AllocError, Global};
use std::marker::Model;

/// The memory in which reports find their words, some 0.8 MB. It is allocated once, and serves one report after another.
/// No report depends on an earlier one.
#[derive(Drop)]
pub struct ReportRoom {
    /// For the least orphan, which has at most 65,535 letters.
    pub(crate) search: Search,
    /// For the least twins, in a box, since larger values cost more when they are moved.
    pub(crate) twins: Box<ShortPair>,
    /// For the walks that spell the least twins and the periods of the least splits.
    pub(crate) walker: Walker,
    /// For the least right split.
    pub(crate) right: SplitRoom,
    /// For the least left split.
    pub(crate) left: SplitRoom,
}

impl Model for ReportRoom {
    ghost use Rattle.std.specs.Prelude.{⊤};

    ghost Value = { ⊤ };

    ghost view = { λ r. tt };
}

impl ReportRoom {
    /// Allocates the memory of a room. The only error is lack of memory.
    pub fn new(alloc: Global) -> Result<ReportRoom, AllocError> {
        let twins = ShortPair {
            x: ShortWord::new(),
            y: ShortWord::new(),
        };
        Ok(ReportRoom {
            search: Search::new(alloc)?,
            twins: Box::new(alloc, twins)?,
            walker: Walker::new(alloc)?,
            right: SplitRoom::new(alloc)?,
            left: SplitRoom::new(alloc)?,
        })
    }
}
