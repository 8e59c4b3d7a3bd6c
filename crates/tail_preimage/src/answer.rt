//! The function `preimage`, which finds a placed configuration, or a gap.
//!
//! A placed configuration has a left period, a middle and a right period, and the middle begins at any place. Its shape
//! says how many periods of the given configuration its parts span. The first placed configuration has the first
//! possible shape, and then the first letters in dictionary order. A stretch of the given configuration consists of
//! zero or more left periods, the middle and zero or more right periods. A gap is a stretch that is an orphan.

ghost use Rattle.std.specs.Prelude.{◌≡◌, ◌↔◌, IfOk, IsTrue};
ghost use Rattle.tail_preimage.specs.Preimages.{PlacedConfig, MapsTo};
ghost use Rattle.tail_preimage.specs.Answers.{IsPreimageAnswer, is_from, pre_of};

use crate::room::PreimageRoom;
use std::alloc::{AllocError, Global};
use tail_config::Tail;
use word_image::{Rule, Word};

/// A configuration whose middle begins at the place `at`.
#[derive(Debug, Drop)]
pub struct Placed {
    /// The place at which the middle begins.
    pub at: i64,
    /// The left period of the configuration.
    pub left: Word,
    /// The middle of the configuration.
    pub middle: Word,
    /// The right period of the configuration.
    pub right: Word,
}

/// A preimage of a configuration, or the reason why there is none.
#[derive(Debug, Drop)]
pub enum Pre {
    /// The first placed configuration that the rule maps to the given configuration.
    From(Placed),
    /// There is no preimage: this is the first stretch of the given configuration that is an orphan.
    Gap {
        /// The number of left periods in the stretch.
        before: u16,
        /// The number of right periods in the stretch.
        after: u16,
        /// The letters of the stretch.
        word: Word,
    },
}

/// A `Placed` whose parts are lent by a room.
#[derive(Clone, Copy, Debug)]
pub struct LentPlaced<'r> {
    /// The place at which the middle begins.
    pub at: i64,
    /// The left period of the configuration.
    pub left: &'r [u8],
    /// The middle of the configuration.
    pub middle: &'r [u8],
    /// The right period of the configuration.
    pub right: &'r [u8],
}

/// A `Pre` whose letters are lent by a room.
#[derive(Clone, Copy, Debug)]
pub enum LentPre<'r> {
    /// The first placed configuration that the rule maps to the given configuration.
    From(LentPlaced<'r>),
    /// There is no preimage: this is the first stretch of the given configuration that is an orphan.
    Gap {
        /// The number of left periods in the stretch.
        before: u16,
        /// The number of right periods in the stretch.
        after: u16,
        /// The letters of the stretch.
        word: &'r [u8],
    },
}

impl LentPre<'_> {
    /// Copies the answer. The only error is lack of memory.
    pub fn to_pre(&self, alloc: Global) -> Result<Pre, AllocError>
        ensures { IfOk result (λ pre. pre ≡ pre_of self.now) }
    {
        match self {
            LentPre::From(placed) => Ok(Pre::From(Placed {
                at: placed.at,
                left: Word::of(Vec::from_slice(alloc, placed.left)?),
                middle: Word::of(Vec::from_slice(alloc, placed.middle)?),
                right: Word::of(Vec::from_slice(alloc, placed.right)?),
            })),
            LentPre::Gap {
                before,
                after,
                word,
            } => Ok(Pre::Gap {
                before: *before,
                after: *after,
                word: Word::of(Vec::from_slice(alloc, word)?),
            }),
        }
    }
}

/// Returns the first placed configuration that the rule maps to the given configuration. If there is none, returns
/// the first stretch of the given configuration that is an orphan. The only error is lack of memory.
pub fn preimage(alloc: Global, rule: &Rule, tail: &Tail) -> Result<Pre, AllocError>
    requires { rule.now.states ≡ tail.now.states }
    ensures answer { IfOk result (IsPreimageAnswer rule.now tail.now.config) }
    ensures only { IfOk result (λ pre. (other : Pre) → IsPreimageAnswer rule.now tail.now.config other → other ≡ pre) }
    ensures exactly { IfOk result (λ pre. IsTrue (is_from pre) ↔ ((p : PlacedConfig) × MapsTo rule.now p tail.now.config)) }
{
    let mut room = PreimageRoom::new(alloc)?;
    room.preimage(rule, &tail.lend()).to_pre(alloc)
}
