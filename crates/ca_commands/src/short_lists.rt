//! Functions that read operands with an item for each letter: the weights of the letters, or their new names.
ghost use Rattle.std.specs.Prelude.{◌≡◌, [], ◌∷◌, position, ◌==◌, map, MatchOption};
ghost use Rattle.word_image.specs.Digits.{letter_at};
ghost use Rattle.ca_commands.specs.Operands.{AreColours};
ghost use Rattle.ca_commands.specs.WeightTexts.{AreWeightTexts, pieces, weights_said};

use crate::operands::weight;
use ca_questions::ShortList;
use word_image::{MOST_STATES, letter};

/// Reads a list of weights: from 1 to 16 numbers with one comma between two of them. Each number has one to three
/// decimal digits and is at most 255.
pub fn weights(text: &[u8]) -> Option<ShortList>
    ensures { MatchOption result (¬ AreWeightTexts text.now)
        (λ list. AreWeightTexts text.now × (list ≡ weights_said text.now)) }
{
    let mut list = ShortList::new();
    let mut rest = text;
    for _i in 0..MOST_STATES {
        let Some((piece, others)) = cut(rest) else {
            list.push(weight(rest)?);
            return Some(list);
        };
        list.push(weight(piece)?);
        rest = others;
    }
    None
}

/// Reads the new names of letters: from 1 to 16 hexadecimal digits.
pub fn colours(text: &[u8]) -> Option<ShortList>
    ensures { MatchOption result (¬ AreColours text.now)
        (λ list. AreColours text.now × (list ≡ map letter_at text.now)) }
{
    if text.is_empty() || text.len() > MOST_STATES {
        return None;
    }
    let mut list = ShortList::new();
    for digit in text {
        list.push(letter(*digit)?);
    }
    Some(list)
}

/// Returns the bytes before the first comma of a text and the bytes after it, or None if there is no comma.
fn cut(text: &[u8]) -> Option<(&[u8], &[u8])>
    ensures { MatchOption result
        (pieces text.now ≡ text.now ∷ [])
        (λ cut. pieces text.now ≡ cut.0.now ∷ pieces cut.1.now) }
{
    match comma(text) {
        Some(place) => Some((&text[..place], &text[place + 1..])),
        None => None,
    }
}

/// Returns the place of the first comma of a text, or None if there is none.
fn comma(text: &[u8]) -> Option<usize>
    ensures { result ≡ position (λ b. b == 44) text.now }
{
    text.iter().position(|byte| *byte == b',')
}
