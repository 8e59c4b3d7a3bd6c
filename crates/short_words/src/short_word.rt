//! The types `ShortWord`, a word of at most 520 letters, and `ShortPair`, a pair of such words.

ghost use Rattle.std.specs.Prelude.{◌≡◌, ◌+◌, ◌<◌, ◌≤◌, ◌++◌, ◌∷◌, [], length, reverse, IfOk};

use std::alloc::{AllocError, Global};
use std::marker::Model;

/// The greatest number of letters of a short word.
pub const MOST_LETTERS: usize = 520;

/// A word of at most 520 letters. Contracts treat it as the list of its letters.
#[derive(Debug, Drop)]
pub struct ShortWord {
    // The letters of the word, followed by any numbers.
    letters: [u8; MOST_LETTERS],
    // How many letters the word has.
    count: usize,
}

impl Model for ShortWord {
    ghost use Rattle.std.specs.Prelude.{ℕ, ◌≤◌, List, take};
    ghost use Rattle.short_words.specs.declared.short_word.TheConstants.{MOST_LETTERS};

    ghost Value = { List ℕ };

    ghost view = { λ w. take w.count w.letters };

    ghost invariant = { λ w. w.count ≤ MOST_LETTERS };
}

impl ShortWord {
    /// Makes a word without letters.
    pub fn new() -> ShortWord
        ensures { result ≡ [] }
    {
        ShortWord {
            letters: [0; MOST_LETTERS],
            count: 0,
        }
    }

    /// Makes a word of these letters, at most 520.
    pub fn of(letters: &[u8]) -> ShortWord
        requires { length letters.now ≤ MOST_LETTERS }
        ensures { result ≡ letters.now }
    {
        let mut word = ShortWord::new();
        word.append(letters);
        word
    }

    /// Appends a letter to a word of at most 519 letters.
    pub fn push(&mut self, letter: u8)
        requires { length self.old < MOST_LETTERS }
        ensures { self.new ≡ self.old ++ letter ∷ [] }
    {
        self.letters[self.count] = letter;
        self.count += 1;
    }

    /// Appends these letters. The word then has at most 520 letters.
    pub fn append(&mut self, letters: &[u8])
        requires { length self.old + length letters.now ≤ MOST_LETTERS }
        ensures { self.new ≡ self.old ++ letters.now }
    {
        for letter in letters {
            self.push(*letter);
        }
    }

    /// Removes all letters.
    pub fn clear(&mut self)
        ensures { self.new ≡ [] }
    {
        self.count = 0;
    }

    /// Reverses the order of the letters.
    pub fn reverse(&mut self)
        ensures { self.new ≡ reverse self.old }
    {
        self.letters[..self.count].reverse();
    }

    /// Returns the number of letters, at most 520.
    pub fn len(&self) -> usize
        ensures len { result ≡ length self.now }
        ensures most { result ≤ MOST_LETTERS }
    {
        self.count
    }

    /// Returns the letters from left to right, at most 520.
    pub fn as_slice(&self) -> &[u8]
        ensures letters { result.now ≡ self.now }
        ensures most { length result.now ≤ MOST_LETTERS }
    {
        &self.letters[..self.count]
    }

    /// Copies the letters into memory of their own. The only error is lack of memory.
    pub fn to_vec(&self, alloc: Global) -> Result<Vec<u8>, AllocError>
        ensures { IfOk result (λ letters. letters.items ≡ self.now) }
    {
        self.as_slice().to_vec(alloc)
    }
}

/// Two words of at most 520 letters each, such as twins or an erasable pair.
#[derive(Debug, Drop)]
pub struct ShortPair {
    /// The first of the two words.
    pub x: ShortWord,
    /// The second of the two words.
    pub y: ShortWord,
}
