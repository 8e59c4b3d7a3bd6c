//! The type `LentWord`, a word of at most 131,073 letters that stand in another place.

ghost use Rattle.std.specs.Prelude.{◌≡◌, ◌≤◌, length};

use std::marker::Model;

/// The greatest number of letters of a lent word.
pub const MOST_LENT: usize = 131_073;

/// A word of at most 131,073 letters, which a room lends. Contracts treat it as the list of its letters.
#[derive(Debug, Drop)]
pub struct LentWord<'r> {
    // The letters from left to right.
    letters: &'r [u8],
}

impl<'r> Model for LentWord<'r> {
    ghost use Rattle.std.specs.Prelude.{ℕ, ◌≤◌, List, length};
    ghost use Rattle.short_words.specs.declared.lent_word.TheConstants.{MOST_LENT};

    ghost Value = { List ℕ };

    ghost view = { λ w. w.letters.now };

    ghost invariant = { λ w. length w.letters.now ≤ MOST_LENT };
}

impl<'r> LentWord<'r> {
    /// Makes a word of these letters, at most 131,073.
    pub fn of(letters: &'r [u8]) -> LentWord<'r>
        requires { length letters.now ≤ MOST_LENT }
        ensures { result ≡ letters.now }
    {
        LentWord { letters }
    }

    /// Returns the letters from left to right, at most 131,073.
    pub fn as_slice(&self) -> &[u8]
        ensures letters { result.now ≡ self.now }
        ensures most { length result.now ≤ MOST_LENT }
    {
        self.letters
    }
}
