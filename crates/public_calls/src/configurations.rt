//! Functions that call the public functions of `tail_config` and `tail_preimage`, and that name their faults.

ghost use Rattle.std.specs.Prelude.{◌≡◌, ◌≤◌, ◌^◌, unsigned_abs};
ghost use Rattle.word_image.specs.LocalRules.{most_states};

use std::alloc::{AllocError, Global};
use tail_config::{Part, Tail, TailFault, TailRefusal, TailTextFault};
use tail_preimage::{Placed, Pre};
use word_image::{Rule, Word};

/// Makes the configuration with these three parts. If it has a fault, returns the fault and gives the three parts
/// back.
pub fn tail(
    k: u8,
    left: Vec<u8>,
    middle: Vec<u8>,
    right: Vec<u8>,
) -> Result<Tail, (TailFault, Vec<u8>, Vec<u8>, Vec<u8>)>
    requires least { 2 ≤ k }
    requires most { k ≤ most_states }
{
    match Tail::new(k, left, middle, right) {
        Ok(tail) => Ok(tail),
        Err(
            TailRefusal {
                fault,
                left,
                middle,
                right,
            },
        ) => Err((fault, left, middle, right)),
    }
}

/// Returns the number of letters of a configuration, its left period, its middle and its right period.
pub fn parts(tail: &Tail) -> (u8, &[u8], &[u8], &[u8]) {
    (tail.k(), tail.left(), tail.middle(), tail.right())
}

/// Returns the letter of a configuration at place `i`, and the letter of its image there.
pub fn cells(tail: &Tail, rule: &Rule, i: i64) -> (u8, u8)
    requires place { unsigned_abs i ≤ 2 ^ 61 }
    requires one_k { rule.now.states ≡ tail.now.states }
{
    (tail.cell(i), tail.image_cell(rule, i))
}

/// Returns the mirror image of a configuration.
pub fn mirror(tail: Tail) -> Tail {
    tail.mirror()
}

/// Returns a place at which two configurations differ, if there is one, whether they agree far out on the left, and
/// whether they agree far out on the right.
pub fn compared(a: &Tail, b: &Tail) -> (Option<i64>, bool, bool) {
    (
        tail_config::differ(a, b),
        tail_config::agree_left(a, b),
        tail_config::agree_right(a, b),
    )
}

/// Returns whether two configurations have the same image.
pub fn share(rule: &Rule, a: &Tail, b: &Tail) -> bool
    requires first { rule.now.states ≡ a.now.states }
    requires second { rule.now.states ≡ b.now.states }
{
    tail_config::share(rule, a, b)
}

/// Returns the configuration with this text over the letters below k, or the first fault of the text.
pub fn read(alloc: Global, k: u8, text: &[u8]) -> Result<Tail, TailTextFault>
    requires least { 2 ≤ k }
    requires most { k ≤ most_states }
{
    tail_config::parse(alloc, k, text)
}

/// Returns the text of a configuration.
pub fn print(alloc: Global, tail: &Tail) -> Result<Vec<u8>, AllocError> {
    tail_config::print(alloc, tail)
}

/// Returns a preimage of a configuration: the place of its middle, and its three parts. If there is none, the inner
/// error is the first part of the configuration that is an orphan: its number of left periods, its number of right
/// periods, and its word.
pub fn preimage(
    alloc: Global,
    rule: &Rule,
    tail: &Tail,
) -> Result<Result<(i64, Word, Word, Word), (u16, u16, Word)>, AllocError>
    requires { rule.now.states ≡ tail.now.states }
{
    match tail_preimage::preimage(alloc, rule, tail)? {
        Pre::From(
            Placed {
                at,
                left,
                middle,
                right,
            },
        ) => Ok(Ok((at, left, middle, right))),
        Pre::Gap {
            before,
            after,
            word,
        } => Ok(Err((before, after, word))),
    }
}

/// Returns faults of each kind that the three parts of a configuration can have.
pub fn tail_faults(place: usize) -> [TailFault; 6] {
    use TailFault::{LeftEmpty, Letter, Long, RightEmpty};
    [
        LeftEmpty,
        RightEmpty,
        Long(Part::Left),
        Long(Part::Middle),
        Long(Part::Right),
        Letter(Part::Left, place),
    ]
}

/// Returns an example of each fault with which reading a configuration can fail: a fault of form at this place, this fault
/// of the parts, and lack of memory.
pub fn text_faults(place: usize, fault: TailFault) -> [TailTextFault; 3] {
    [
        TailTextFault::Form(place),
        TailTextFault::Tail(fault),
        TailTextFault::Memory(AllocError),
    ]
}
