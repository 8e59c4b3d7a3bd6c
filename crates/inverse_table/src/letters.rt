//! Finds the letter at one place of a word from the image of the word, for all words of one length. Words and images
//! are given by their values. `images` has the image of each word.
ghost use Rattle.std.specs.Prelude.{◌≡◌, ℕ, ◌+◌, ◌*◌, ◌%◌, ◌<◌, ◌≤◌, All, length, replicate, slice_index, MatchOption};
ghost use Rattle.word_image.specs.LocalRules.{most_states};
ghost use Rattle.inverse_table.specs.ImageValues.{AreUndetermined, AreReadBack, HasApart, IsRead, letter_by_unit};

use crate::cycles::next_number;

/// The entry for an image that none of the words read so far has.
pub(crate) const UNREAD: u8 = 16;

/// A place in words of the same length, which are given by their values.
#[derive(Clone, Copy)]
pub(crate) struct Place {
    /// The number of letters k. All letters are below k.
    pub k: usize,
    /// How much the value of a word grows if the letter at this place grows by 1. This is k to the power of the
    /// number of letters after the place.
    pub unit: usize,
    ghost some: { 0 < k },
    ghost most: { k ≤ most_states },
    ghost behind: { 0 < unit },
}

impl Place {
    /// Returns the letter at this place of the word with this value.
    fn letter(self, word: usize) -> u8
        ensures { result ≡ letter_by_unit self.k self.unit word }
    {
        (word / self.unit % self.k) as u8
    }
}

/// Writes a letter for each image: the letter at this place of the words that have the image. If two words with the
/// same image have different letters at this place, stops and returns two such words. The words are read in runs of
/// `unit` words, which all have the same letter at this place. The function isn't inlined, since otherwise its loop
/// moves numbers between registers.
#[inline(never)]
pub(crate) fn read_letters(
    letters: &mut [u8],
    images: &[u16],
    place: Place,
) -> Option<(usize, usize)>
    requires unread { letters.old ≡ replicate (length letters.old) 16 }
    requires within { All (λ image. image < length letters.old) images.now }
    requires whole { length images.now % place.unit ≡ 0 }
    ensures long { length letters.new ≡ length letters.old }
    ensures read { MatchOption result
        (AreReadBack (letter_by_unit place.k place.unit) images.now (length images.now) letters.new)
        (λ words. AreUndetermined (letter_by_unit place.k place.unit) images.now words.0 words.1) }
{
    let mut letter = 0;
    for run in 0..images.len() / place.unit {
        if let Some(word) = read_run(letters, images, place, run * place.unit, letter as u8) {
            return Some((word, other_apart(images, word, place).unwrap()));
        }
        letter = next_number(letter, place.k);
    }
    None
}

/// Writes `letter` for the image of each word of a run. The run begins with the word `start`, and all its words have
/// `letter` at the place. If another letter has already been written for an image, stops and returns the word of the
/// run that has this image.
fn read_run(
    letters: &mut [u8],
    images: &[u16],
    place: Place,
    start: usize,
    letter: u8,
) -> Option<usize>
    requires within { All (λ image. image < length letters.old) images.now }
    requires inside { start + place.unit ≤ length images.now }
    requires run { (word : ℕ) → start ≤ word → word < start + place.unit → letter_by_unit place.k place.unit word ≡ letter }
    requires read { IsRead (letter_by_unit place.k place.unit) images.now start letters.old }
    ensures long { length letters.new ≡ length letters.old }
    ensures read { MatchOption result
        (IsRead (letter_by_unit place.k place.unit) images.now (start + place.unit) letters.new)
        (HasApart (letter_by_unit place.k place.unit) images.now) }
{
    for word in start..start + place.unit {
        let image = usize::from(images[word]);
        if letters[image] != letter {
            if letters[image] != UNREAD {
                return Some(word);
            }
            letters[image] = letter;
        }
    }
    None
}

/// Returns a word that has the same image as the given word and another letter at this place. Returns None if there is
/// no such word.
fn other_apart(images: &[u16], word: usize, place: Place) -> Option<usize>
    requires word { word < length images.now }
    ensures { MatchOption result
        ((other : ℕ) → other < length images.now → slice_index images.now other ≡ slice_index images.now word → letter_by_unit place.k place.unit other ≡ letter_by_unit place.k place.unit word)
        (AreUndetermined (letter_by_unit place.k place.unit) images.now word) }
{
    for (other, image) in images.iter().enumerate() {
        if *image == images[word] && place.letter(other) != place.letter(word) {
            return Some(other);
        }
    }
    None
}
