//! Computes the value of a word, and the letters of a word from its value. The value is the base-k number whose digits
//! are the letters. The leftmost letter is the most significant digit.
ghost use Rattle.std.specs.Prelude.{◌≡◌, ℕ, ◌^◌, ◌<◌, ◌≤◌, List, slice_index};
ghost use Rattle.word_image.specs.LocalRules.{value, word_of, most_windows};
ghost use Rattle.word_image.specs.WordsBy.{IsWordBy};

/// Returns the value of the word of n letters that has the letter `letter(i)` at place i. The letters are below k,
/// and there are at most 256 words of n letters.
pub fn value_by<F: Fn(u8) -> u8>(k: u8, n: u8, letter: F) -> u16
    requires word { (w : List ℕ) × IsWordBy k n (F.post letter) w }
    requires fits { k ^ n ≤ most_windows }
    requires callable { (i : ℕ) → i < n → F.pre letter i }
    ensures value { (w : List ℕ) → IsWordBy k n (F.post letter) w → result ≡ value k w }
    ensures below { result < k ^ n }
{
    let mut value = 0;
    for place in 0..n {
        value = value * u16::from(k) + u16::from(letter(place));
    }
    value
}

/// Returns the letter at place `place` of the word of n letters that has the value `word`. The letters are below k, and
/// there are at most 256 words of n letters.
pub fn letter_of(k: u8, n: u8, word: u16, place: u8) -> u8
    requires some { 0 < k }
    requires fits { k ^ n ≤ most_windows }
    requires word { word < k ^ n }
    requires place { place < n }
    ensures letter { result ≡ slice_index (word_of k n word) place }
    ensures below { result < k }
{
    let k = u16::from(k);
    (word / k.pow(u32::from(n - 1 - place)) % k) as u8
}
