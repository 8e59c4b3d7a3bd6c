//! The letters of a table that are fixed in advance. A search only lists rules that have these letters.
ghost use Rattle.std.specs.Prelude.{◌≡◌, ◌<◌, IsTrue, slice_index};
ghost use Rattle.word_image.specs.LocalRules.{most_windows};

use word_image::MOST_ENTRIES;

/// The fixed letters of a table, by the values of the windows. A number below k is a fixed letter. Any other number
/// means that no letter is fixed at the window.
pub type FixedLetters = [u8; MOST_ENTRIES];

/// Returns whether the letters at two windows are fixed and equal.
pub(crate) fn are_one(k: u8, letters: &FixedLetters, first: u16, second: u16) -> bool
    requires first { first < most_windows }
    requires second { second < most_windows }
    ensures fixed { IsTrue result → slice_index letters.now first < k }
    ensures one { IsTrue result → slice_index letters.now first ≡ slice_index letters.now second }
{
    let letter = letters[usize::from(first)];
    letter < k && letter == letters[usize::from(second)]
}
