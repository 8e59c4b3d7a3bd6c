//! The type `AnswerRoom`: the memory in which answers to questions find their long lists.

use image_minimal::{Minimal, SeparationRoom};
use inverse_table::{MOST_IMAGES, TableRoom};
use least_walk::Queue;
use rule_verdicts::ReportRoom;
use std::alloc::{AllocError, Global};
use std::marker::Model;
use tail_preimage::PreimageRoom;

/// The memory in which answers find their long lists, some 9 MB. It is allocated once, and serves one answer after
/// another. No answer depends on an earlier one.
#[derive(Drop)]
pub struct AnswerRoom {
    /// For the verdicts of a rule with their evidence.
    pub(crate) reports: ReportRoom,
    /// For the least word that is an orphan of only one of two rules.
    pub(crate) separations: SeparationRoom,
    /// For the preimage of a configuration.
    pub(crate) preimages: PreimageRoom,
    /// For the table of an inverse map.
    pub(crate) tables: TableRoom,
    /// For the least erasable pair.
    pub(crate) walks: Queue,
    /// For the least automaton of a rule.
    pub(crate) minimal: Minimal,
    /// For the next classes of an automaton, and for numbers while an inverse map is computed.
    pub(crate) numbers: Numbers,
}

/// A list with capacity for 2^20 numbers. Contracts say nothing about the numbers.
#[derive(Drop)]
pub(crate) struct Numbers {
    pub(crate) list: Vec<u16>,
}

impl Model for Numbers {
    ghost use Rattle.std.specs.Prelude.{⊤, ◌≤◌, vec_capacity};
    ghost use Rattle.inverse_table.specs.declared.image_values.TheConstants.{MOST_IMAGES};

    ghost Value = { ⊤ };

    ghost view = { λ n. tt };

    ghost invariant = { λ n. MOST_IMAGES ≤ vec_capacity n.list };
}

impl AnswerRoom {
    /// Allocates the memory of a room. The only error is lack of memory.
    pub fn new(alloc: Global) -> Result<AnswerRoom, AllocError> {
        // The largest parts come last: if there is no memory for a part, those before it are dropped, and the prover takes
        // minutes if these are large.
        Ok(AnswerRoom {
            numbers: Numbers {
                list: Vec::with_capacity(alloc, MOST_IMAGES)?,
            },
            walks: Queue::new(alloc)?,
            separations: SeparationRoom::new(alloc)?,
            preimages: PreimageRoom::new(alloc)?,
            tables: TableRoom::new(alloc)?,
            minimal: Minimal::new(alloc)?,
            reports: ReportRoom::new(alloc)?,
        })
    }
}
