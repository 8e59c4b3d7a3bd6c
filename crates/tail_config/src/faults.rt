//! Finds out why three parts don't form a Tail. A Tail is a configuration that consists of a left period, a middle and
//! a right period.
ghost use Rattle.std.specs.Prelude.{◌≡◌};
ghost use Rattle.std.specs.Result.{result_err};
ghost use Rattle.tail_config.specs.TailValues.{config_of};
ghost use Rattle.tail_config.specs.TailFaults.{first_fault, length_faults, long_fault, letter_fault, tail_fault, tail_fault_text};

use word_image::first_foreign;

/// The greatest number of letters in a part.
pub const MOST_LETTERS: usize = 1024;

/// A part of a Tail.
#[derive(Clone, Copy, Debug, PartialEq, Eq)]
pub enum Part {
    /// The left period of a Tail.
    Left,
    /// The middle of a Tail.
    Middle,
    /// The right period of a Tail.
    Right,
}

/// Why three parts don't form a Tail.
#[derive(Clone, Copy, Debug, PartialEq, Eq)]
pub enum TailFault {
    /// The left period has no letter.
    LeftEmpty,
    /// The right period has no letter.
    RightEmpty,
    /// This part has more than 1,024 letters. It is the first such part from the left.
    Long(Part),
    /// The letter at this place of this part isn't below k. It is the first such letter from the left.
    Letter(Part, usize),
}

/// The fault of three parts that don't form a Tail, and the parts themselves.
#[derive(Debug, Drop)]
pub struct TailRefusal {
    /// The first fault of the parts.
    pub fault: TailFault,
    /// The left period that was given.
    pub left: Vec<u8>,
    /// The middle that was given.
    pub middle: Vec<u8>,
    /// The right period that was given.
    pub right: Vec<u8>,
}

/// Returns the word that texts use for a fault.
pub fn tail_name(fault: TailFault) -> &'static str
    ensures { result.now ≡ tail_fault_text fault }
{
    match fault {
        TailFault::LeftEmpty => "leftempty",
        TailFault::RightEmpty => "rightempty",
        TailFault::Long(_) => "long",
        TailFault::Letter(..) => "letter",
    }
}

/// Checks whether three parts form a Tail over the letters below k. Otherwise returns the first fault, in the order
/// of `TailFault`. Of two faults of the same kind, the fault of the part further to the left comes first.
pub fn check_parts(k: u8, left: &[u8], middle: &[u8], right: &[u8]) -> Result<(), TailFault>
    ensures { result_err result ≡ tail_fault k (config_of left.now middle.now right.now) }
{
    check_lengths(left, middle, right)?;
    check_letters(k, Part::Left, left)?;
    check_letters(k, Part::Middle, middle)?;
    check_letters(k, Part::Right, right)
}

/// Checks that both periods have a letter and that no part has more than 1,024 letters. Returns the first fault
/// otherwise, in the order of `TailFault`.
pub fn check_lengths(left: &[u8], middle: &[u8], right: &[u8]) -> Result<(), TailFault>
    ensures { result_err result ≡ first_fault (length_faults left.now middle.now right.now) }
{
    if left.is_empty() {
        return Err(TailFault::LeftEmpty);
    }
    if right.is_empty() {
        return Err(TailFault::RightEmpty);
    }
    check_length(Part::Left, left)?;
    check_length(Part::Middle, middle)?;
    check_length(Part::Right, right)
}

/// Checks that a part has at most 1,024 letters. Returns `Long` otherwise.
fn check_length(part: Part, letters: &[u8]) -> Result<(), TailFault>
    ensures { result_err result ≡ long_fault part letters.now }
{
    if letters.len() > MOST_LETTERS {
        return Err(TailFault::Long(part));
    }
    Ok(())
}

/// Checks that all letters of a part are below k. Otherwise returns `Letter` for the first letter that isn't.
fn check_letters(k: u8, part: Part, letters: &[u8]) -> Result<(), TailFault>
    ensures { result_err result ≡ letter_fault k part letters.now }
{
    match first_foreign(k, letters) {
        Some(place) => Err(TailFault::Letter(part, place)),
        None => Ok(()),
    }
}
