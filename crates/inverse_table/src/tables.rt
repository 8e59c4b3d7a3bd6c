//! The function `table`, which computes the inverse map of a rule over a window. The window (n, c) stands for n letters
//! of an image, and for the place c in the words of n + m - 1 letters that have these letters as image.
ghost use Rattle.std.specs.Prelude.{◌≡◌, ◌+◌, ◌-◌, ◌^◌, ◌<◌, ◌≤◌, IfOk, IsOk, MatchResult};
ghost use Rattle.inverse_table.specs.MapLimits.{most_map_entries, longest_window};
ghost use Rattle.word_image.specs.LocalRules.{word_of};
ghost use Rattle.word_image.specs.Windows.{IsDetermined};
ghost use Rattle.tail_config.specs.InverseMaps.{IsInverseMap};
ghost use Rattle.inverse_table.specs.InverseMaps.{GivesBack};
ghost use Rattle.inverse_table.specs.InverseFaults.{IsInvFault};
ghost use Rattle.inverse_table.specs.declared.tables.InvFault.TheVariants.{Memory};

use crate::image_values::MOST_IMAGES;
use crate::inverse_map::InverseMap;
use crate::table_room::{NoMap, TableRoom, word_count};
use inverse_window::WindowAt;
use std::alloc::{AllocError, Global};
use word_image::{Rule, Word};

/// Why a window has no inverse map, or why there was no memory for it.
#[derive(Debug, Drop)]
pub enum InvFault {
    /// There are more than 65,536 words of n letters.
    Wide,
    /// The two words x and y of n + m - 1 letters have the same image and different letters at place c. So the window
    /// isn't determined.
    NotDetermined { x: Word, y: Word },
    /// There is not enough memory.
    Memory(AllocError),
}

impl From<AllocError> for InvFault {
    ghost from_gives = { λ e fault. fault ≡ Memory e };

    fn from(e: AllocError) -> InvFault {
        InvFault::Memory(e)
    }
}

/// Returns the inverse map of a rule over the window (n, c), for 1 ≤ n ≤ 480 and c ≤ n + m - 2. The map has a letter
/// for each word of n letters: the letter at place c of every preimage of the word, or 0 if the word has no preimage.
///
/// Returns `Wide` if there are more than 65,536 words of n letters. Otherwise returns `NotDetermined` if the window
/// isn't determined, that is, if two words with the same image differ at place c. Returns `Memory` if there isn't
/// enough memory, whether the window is determined or not.
pub fn table(alloc: Global, rule: &Rule, at: WindowAt) -> Result<InverseMap, InvFault>
    requires some { 1 ≤ at.n }
    requires most { at.n ≤ longest_window }
    requires inside { at.c ≤ at.n + rule.now.width - 2 }
    ensures map { IfOk result (IsInverseMap rule.now at.n at.c) }
    ensures gives_back { IfOk result (GivesBack rule.now at.n at.c) }
    ensures determined { IsOk result → IsDetermined rule.now at.n at.c }
    ensures fault { MatchResult result (λ _. rule.now.states ^ at.n ≤ most_map_entries) (IsInvFault rule.now at.n at.c) }
{
    if word_count(rule, at.n).is_none() {
        return Err(InvFault::Wide);
    }
    let mut room = TableRoom::new(alloc)?;
    let mut numbers = Vec::with_capacity(alloc, MOST_IMAGES)?;
    match room.table(&mut numbers, rule, at) {
        Ok(map) => Ok(InverseMap::of(alloc, &map)?),
        Err(NoMap::Wide) => Err(InvFault::Wide),
        Err(NoMap::NotDetermined { x, y }) => Err(InvFault::NotDetermined {
            x: word_at(alloc, rule, at.n, x)?,
            y: word_at(alloc, rule, at.n, y)?,
        }),
    }
}

/// Returns the word of n + m - 1 letters with this value.
fn word_at(alloc: Global, rule: &Rule, n: u16, value: usize) -> Result<Word, AllocError>
    requires some { 1 ≤ n }
    requires fits { rule.now.states ^ n ≤ most_map_entries }
    requires value { value < rule.now.states ^ (n + (rule.now.width - 1)) }
    ensures { IfOk result (λ w. w ≡ word_of rule.now.states (n + (rule.now.width - 1)) value) }
{
    let k = usize::from(rule.k());
    let long = u32::from(n) + u32::from(rule.m()) - 1;
    let mut letters = Vec::with_capacity(alloc, long as usize)?;
    for place in 0..long {
        letters.push((value / k.pow(long - 1 - place) % k) as u8)?;
    }
    Ok(Word::of(letters))
}
