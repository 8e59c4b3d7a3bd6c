//! The lines of answers about the words that have a preimage. The states of an automaton are called classes.
ghost use Rattle.std.specs.Prelude.{◌≡◌, ℕ, ◌+◌, ◌*◌, ◌<◌, ◌≤◌, ◌++◌, drop, length, slice_index};
ghost use Rattle.std.specs.List.{flat_map, range_with_len};
ghost use Rattle.std.specs.Fmt.{decimal};
ghost use Rattle.image_minimal.specs.ImageLanguages as languages;
ghost use Rattle.ca_questions.specs.Values.{automaton_of, pair_of};
ghost use Rattle.ca_text.specs.Lines.{after_class, automaton_lines, class_line, dead_line};
ghost use Rattle.ca_text.specs.Rooms.{AppendsAtMost, IsAppended};
ghost use Rattle.ca_text.specs.Texts.{erased_line, same_line};
ghost use Rattle.ca_questions.specs.Writable.{HasDigits, HasRows, HavePairDigits};

use crate::decimals::write_u32;
use crate::output::Output;
use ca_questions::Automaton;
use short_words::{LentWord, ShortPair};
use std::alloc::AllocError;
use word_image::MOST_STATES;

/// The greatest number of bytes for one class in a line: five digits, since its number is below 65,536, and a blank or
/// the end of the line.
const MOST_PIECE: usize = 6;

/// The greatest number of bytes of a line that lists the next class for each letter.
const MOST_LINE: usize = MOST_PIECE * MOST_STATES;

/// Appends the lines of an automaton: two lines about the whole automaton, and a line for each class.
pub fn write_automaton(output: &mut Output, automaton: &Automaton) -> Result<(), AllocError>
    requires { HasRows (automaton_of automaton.now) }
    ensures appended { IsAppended result output.old output.new (automaton_lines (automaton_of automaton.now)) }
    ensures few { AppendsAtMost (MOST_LINE * automaton.now.classes + 93) result output.old output.new }
{
    output.push_line_with_number("classes ", u128::from(automaton.classes))?;
    write_dead(output, automaton.dead)?;
    write_classes(output, automaton)
}

/// Appends the line with the class of all orphans, or `dead none` if there is no such class.
fn write_dead(output: &mut Output, dead: Option<u32>) -> Result<(), AllocError>
    ensures appended { IsAppended result output.old output.new (dead_line dead) }
    ensures few { AppendsAtMost 45 result output.old output.new }
{
    match dead {
        None => output.push_line("dead none"),
        Some(class) => output.push_line_with_number("dead ", u128::from(class)),
    }
}

/// Appends a line for each class, with its next class for each letter.
fn write_classes(output: &mut Output, automaton: &Automaton) -> Result<(), AllocError>
    requires { HasRows (automaton_of automaton.now) }
    ensures appended { IsAppended result output.old output.new (flat_map (class_line (automaton_of automaton.now)) (range_with_len 0 automaton.now.classes)) }
    ensures few { AppendsAtMost (MOST_LINE * automaton.now.classes) result output.old output.new }
{
    for class in 0..automaton.classes {
        write_class(output, automaton, class)?;
    }
    Ok(())
}

/// Appends the line with the next class of this class for each letter.
fn write_class(output: &mut Output, automaton: &Automaton, class: u32) -> Result<(), AllocError>
    requires rows { HasRows (automaton_of automaton.now) }
    requires class { class < automaton.now.classes }
    ensures appended { IsAppended result output.old output.new (class_line (automaton_of automaton.now) class) }
    ensures few { AppendsAtMost MOST_LINE result output.old output.new }
{
    let k = usize::from(automaton.states);
    let first = class as usize * k;
    write_row(output, automaton.states, &automaton.next[first..first + k])
}

/// Appends the line with these k classes, with a blank between two of them.
fn write_row(output: &mut Output, k: u8, row: &[u16]) -> Result<(), AllocError>
    requires some { 0 < k }
    requires most { k ≤ 16 }
    requires long { length row.now ≡ k }
    ensures appended { (a : languages.Automaton) (i : ℕ) → a.states ≡ k → ((l : ℕ) → l < k → slice_index row.now l ≡ after_class a i l)
        → IsAppended result output.old output.new (class_line a i) }
    ensures few { AppendsAtMost MOST_LINE result output.old output.new }
{
    // The bytes of the line are filled from the end of the line to its start.
    let mut bytes = [b'\n'; MOST_LINE];
    let mut first = MOST_LINE - 1;
    for letter in (1..k).rev() {
        first = write_short(row[letter as usize], &mut bytes, first) - 1;
        bytes[first] = b' ';
    }
    first = write_short(row[0], &mut bytes, first);
    output.push(&bytes[first..])
}

/// Writes the decimal digits of the number of a class, at most five. The last digit is at place `end - 1`. Returns the
/// place of the first digit.
fn write_short(class: u16, bytes: &mut [u8], end: usize) -> usize
    requires room { 5 ≤ end }
    requires end { end ≤ length bytes.old }
    ensures first { result + length (decimal class) ≡ end }
    ensures few { (1 ≤ length (decimal class)) × (length (decimal class) ≤ 5) }
    ensures digits { drop result bytes.new ≡ decimal class ++ drop end bytes.old }
{
    write_u32(u32::from(class), bytes, end)
}

/// Appends the line with a word that is an orphan of only one of two rules, or `same yes` if there is no such word.
pub fn write_same(output: &mut Output, word: &Option<LentWord>) -> Result<(), AllocError>
    requires { HasDigits word.now }
    ensures appended { IsAppended result output.old output.new (same_line word.now) }
    ensures few { AppendsAtMost 131100 result output.old output.new }
{
    match word {
        None => output.push_line("same yes"),
        Some(word) => output.push_line_with_word("same no ", word.as_slice()),
    }
}

/// Appends the line with an erasable pair, or `erase none` if there is none.
pub fn write_erased(output: &mut Output, pair: &Option<ShortPair>) -> Result<(), AllocError>
    requires { HavePairDigits (pair_of pair.now) }
    ensures appended { IsAppended result output.old output.new (erased_line (pair_of pair.now)) }
    ensures few { AppendsAtMost 2100 result output.old output.new }
{
    match pair {
        None => output.push_line("erase none"),
        Some(pair) => {
            output.push_line_with_words("erase ", pair.x.as_slice(), pair.y.as_slice())
        }
    }
}
