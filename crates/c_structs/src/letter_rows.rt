//! Rows: the place and the length of each word in a buffer of letters.
ghost use Rattle.std.specs.Prelude.{◌≡◌, ◌++◌, ◌+◌, ◌≤◌, length, vec_len, vec_capacity};
ghost use Rattle.c_structs.specs.LetterRows.{IsRow, AreTwinRows, AreTailRows, AreSplitRows, tail_letters, split_letters};
ghost use Rattle.c_structs.specs.LetterRooms.{most_pair, most_split, most_tail};

use short_words::ShortPair;
use tail_config::LentTail;

/// The row of a word: where the word is in a buffer of letters.
#[repr(C)]
#[derive(Clone, Copy, Debug)]
pub struct LetterRow {
    /// The place of the first letter of the word in the buffer.
    pub begin: usize,
    /// The number of letters of the word.
    pub length: usize,
}

/// The rows of the left period, of the middle and of the right period of a configuration.
#[repr(C)]
#[derive(Clone, Copy, Debug)]
pub struct TailRows {
    pub left: LetterRow,
    pub middle: LetterRow,
    pub right: LetterRow,
}

/// The rows of the two words of twins.
#[repr(C)]
#[derive(Clone, Copy, Debug)]
pub struct TwinRows {
    pub x: LetterRow,
    pub y: LetterRow,
}

/// The rows of the parts of the two configurations of a split.
#[repr(C)]
#[derive(Clone, Copy, Debug)]
pub struct SplitRows {
    pub x: TailRows,
    pub y: TailRows,
}

/// The row that a report has for a word that doesn't exist. It has no letters.
pub const NO_ROW: LetterRow = LetterRow {
    begin: 0,
    length: 0,
};

/// The rows of a report without twins: both rows have no letters.
pub const NO_TWINS: TwinRows = TwinRows {
    x: NO_ROW,
    y: NO_ROW,
};

const NO_TAIL: TailRows = TailRows {
    left: NO_ROW,
    middle: NO_ROW,
    right: NO_ROW,
};

/// The rows of a report without a split: all rows have no letters.
pub const NO_SPLIT: SplitRows = SplitRows {
    x: NO_TAIL,
    y: NO_TAIL,
};

/// Appends a word to letters that have room for it, and returns its row.
pub fn add_word(letters: &mut Vec<u8>, word: &[u8]) -> LetterRow
    requires { vec_len letters.old + length word.now ≤ vec_capacity letters.old }
    ensures letters { letters.new.items ≡ letters.old.items ++ word.now }
    ensures row { IsRow letters.new.items result word.now }
    ensures room { (vec_len letters.new ≤ vec_len letters.old + length word.now) × (vec_capacity letters.old ≤ vec_capacity letters.new) }
{
    let begin = letters.len();
    match letters.extend_from_slice(word) {
        Ok(()) => LetterRow {
            begin,
            length: word.len(),
        },
        Err(_) => unreachable!(),
    }
}

/// Appends two words to letters that have room for them, and returns their rows.
pub fn add_twins(letters: &mut Vec<u8>, pair: &ShortPair) -> TwinRows
    requires { vec_len letters.old + most_pair ≤ vec_capacity letters.old }
    ensures letters { letters.new.items ≡ letters.old.items ++ (pair.now.x ++ pair.now.y) }
    ensures rows { AreTwinRows letters.new.items result pair.now.x pair.now.y }
    ensures room { (vec_len letters.new ≤ vec_len letters.old + most_pair) × (vec_capacity letters.old ≤ vec_capacity letters.new) }
{
    let x = add_word(letters, pair.x.as_slice());
    let y = add_word(letters, pair.y.as_slice());
    TwinRows { x, y }
}

/// Appends the parts of a configuration to letters that have room for them, and returns their rows.
fn add_tail(letters: &mut Vec<u8>, tail: &LentTail) -> TailRows
    requires { vec_len letters.old + most_tail ≤ vec_capacity letters.old }
    ensures letters { letters.new.items ≡ letters.old.items ++ tail_letters tail.now.config }
    ensures rows { AreTailRows letters.new.items result tail.now.config }
    ensures room { (vec_len letters.new ≤ vec_len letters.old + most_tail) × (vec_capacity letters.old ≤ vec_capacity letters.new) }
{
    let left = add_word(letters, tail.left());
    let middle = add_word(letters, tail.middle());
    let right = add_word(letters, tail.right());
    TailRows {
        left,
        middle,
        right,
    }
}

/// Appends the parts of two configurations to letters that have room for them, and returns their rows.
pub fn add_split(letters: &mut Vec<u8>, x: &LentTail, y: &LentTail) -> SplitRows
    requires { vec_len letters.old + most_split ≤ vec_capacity letters.old }
    ensures letters { letters.new.items ≡ letters.old.items ++ split_letters x.now.config y.now.config }
    ensures rows { AreSplitRows letters.new.items result x.now.config y.now.config }
    ensures room { (vec_len letters.new ≤ vec_len letters.old + most_split) × (vec_capacity letters.old ≤ vec_capacity letters.new) }
{
    let x = add_tail(letters, x);
    let y = add_tail(letters, y);
    SplitRows { x, y }
}
