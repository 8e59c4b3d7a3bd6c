//! The type `FirstWords`, which has the first words of a command line that comes in one block of bytes.
ghost use Rattle.std.specs.Prelude.{◌≡◌, ℕ, List, [], ◌∷◌, ◌++◌, ◌==◌, ◌<◌, length, map, position, take, IfSome, MatchOption};
ghost use Rattle.ca_c.specs.Blocks.{AreFirstWords, AreWords, kept_words};

use std::marker::Model;

/// The greatest number of words that are kept: one more than a command has.
const KEPT_WORDS: usize = 6;

/// The words of a block, or the first six of them if there are more. No command has six words. Contracts treat it as the
/// list of these words.
#[derive(Drop)]
pub struct FirstWords<'b> {
    // The words, followed by any texts.
    words: [&'b str; KEPT_WORDS],
    // How many words there are.
    count: usize,
}

impl<'b> Model for FirstWords<'b> {
    ghost use Rattle.std.specs.Prelude.{ℕ, ◌≤◌, List, map, take};
    ghost use Rattle.ca_c.specs.Blocks.{kept_words};

    ghost Value = { List (List ℕ) };

    ghost view = { λ w. map (λ word. word.now) (take w.count w.words) };

    ghost invariant = { λ w. w.count ≤ kept_words };
}

impl<'b> FirstWords<'b> {
    /// Reads a block, in which each word ends with a 0 byte. Returns None if a word of the block isn't UTF-8, or if the
    /// last word has no 0 byte after it.
    pub fn of(block: &'b [u8]) -> Option<FirstWords<'b>>
        ensures { MatchOption result ((words : List (List ℕ)) → ¬ AreWords block.now words) (AreFirstWords block.now) }
    {
        let mut first = FirstWords::new();
        let mut rest = block;
        while !rest.is_empty() {
            let Some(end) = word_end(rest) else {
                return None;
            };
            let Ok(word) = str::from_utf8(&rest[..end]) else {
                return None;
            };
            first.keep(word);
            rest = &rest[end + 1..];
        }
        Some(first)
    }

    /// Returns no words.
    fn new() -> FirstWords<'b>
        ensures { result ≡ [] }
    {
        FirstWords {
            words: [""; KEPT_WORDS],
            count: 0,
        }
    }

    /// Appends this word if there are fewer than six words.
    fn keep(&mut self, word: &'b str)
        ensures { self.new ≡ take kept_words (self.old ++ word.now ∷ []) }
    {
        if self.count < KEPT_WORDS {
            self.words[self.count] = word;
            self.count += 1;
        }
    }

    /// Returns the words.
    pub fn as_slice(&self) -> &[&'b str]
        ensures { map (λ word. word.now) result.now ≡ self.now }
    {
        &self.words[..self.count]
    }
}

/// Returns the place of the first 0 byte of a block, or None if it has none.
fn word_end(block: &[u8]) -> Option<usize>
    ensures place { result ≡ position (λ b. b == 0) block.now }
    ensures within { IfSome result (λ i. i < length block.now) }
{
    block.iter().position(|byte| *byte == 0)
}
