//! Compares the fast trims of sets of pairs of nodes with the slow plain trims, round by round. A trim keeps the
//! pairs from which a step leads into the set.

ghost use Rattle.std.specs.Prelude.{◌≡◌, length};
ghost use Rattle.word_image.specs.Graphs.{pair_count};

use pair_graph::{PairSet, Pairs, plain_backward, plain_forward};
use std::alloc::{AllocError, Global};
use std::process::Abort;
use std::test::Fail;
use word_image::{Rule, Side};

// For each case: the states, the width, the offset and the table of a rule, and how many pairs are left after each
// round of forward trims and after each round of backward trims. The last round removes no pair. The numbers come
// from a separate script.
const CASES: [(u8, u8, i8, &[u8], &[u16], &[u16]); 6] = [
    // Rule 110.
    (2, 3, -1, b"01110110", &[16], &[12, 12]),
    // Rule 106.
    (2, 3, -1, b"01010110", &[16], &[14, 14]),
    // Rule 204, which copies the middle one of three cells.
    (2, 3, -1, b"00110011", &[8, 8], &[8, 8]),
    // The sum of two cells modulo 3.
    (3, 2, 0, b"012120201", &[9], &[9]),
    // The rule that copies the second of four cells, but exchanges 0 and 1 if the first, third and fourth cell are 0,
    // 1 and 0.
    (
        2,
        4,
        -1,
        b"0010110100001111",
        &[46, 34, 28, 20, 20],
        &[46, 44, 44],
    ),
    // A rule that reads five cells.
    (
        2,
        5,
        0,
        b"01101110001100111001000111001100",
        &[206, 204, 204],
        &[256],
    ),
];

fn letters(alloc: Global, digits: &[u8]) -> Result<Vec<u8>, AllocError> {
    digits
        .iter()
        .map(|digit| digit.wrapping_sub(b'0'))
        .collect(alloc)
}

/// Returns how many pairs are in the set.
fn size(set: &PairSet, pairs: &Pairs) -> u16
    requires { length set.now ≡ pair_count pairs.now }
{
    let mut size = 0u16;
    for p in 0..pairs.count() {
        if set.holds(p) {
            size = size.wrapping_add(1);
        }
    }
    size
}

/// Returns the set after one round of trims on a side: first the result of the fast trim, then the result of the slow
/// plain trim.
fn round(set: &PairSet, pairs: &Pairs, side: Side) -> (PairSet, PairSet)
    requires { length set.now ≡ pair_count pairs.now }
    ensures first { length result.0 ≡ pair_count pairs.now }
    ensures second { length result.1 ≡ pair_count pairs.now }
{
    match side {
        Side::Right => (set.trim_forward(pairs), plain_forward(set, pairs)),
        Side::Left => (set.trim_backward(pairs), plain_backward(set, pairs)),
    }
}

fn has_rounds(rt: &impl Abort, pairs: &Pairs, side: Side, sizes: &[u16]) {
    let mut set = PairSet::all(pairs);
    for want in sizes {
        let (after, plain) = round(&set, pairs, side);
        assert!(rt; after.same(&plain));
        assert_eq!(rt; size(&after, pairs), *want);
        set = after;
    }
}

fn has_rounds_of_both(rt: &impl Abort, rule: &Rule, forward: &[u16], backward: &[u16]) {
    let pairs = Pairs::of(rule);
    has_rounds(rt, &pairs, Side::Right, forward);
    has_rounds(rt, &pairs, Side::Left, backward);
}

#[test]
fn trims_equal_the_plain_ones(rt: HostRuntime) -> Result<(), Fail> {
    for (k, m, o, digits, forward, backward) in CASES {
        let table = letters(rt.alloc(), digits)?;
        has_rounds_of_both(&rt, &Rule::new(k, m, o, &table)?, forward, backward);
    }
    Ok(())
}

/// Returns the next table of 16 states and width 2 that the generator of the command `sample` draws. `state` is the
/// state of the generator.
fn drawn(state: &mut u64) -> [u8; 256] {
    let mut table = [0; 256];
    for letter in &mut table {
        *state = state
            .wrapping_mul(6_364_136_223_846_793_005)
            .wrapping_add(1_442_695_040_888_963_407);
        *letter = (*state >> 33 & 15) as u8;
    }
    table
}

/// The rules are the first 8 rules that the seed 1 draws. No trim removes a pair of them.
#[test]
fn trims_of_drawn_rules_equal_the_plain_ones(rt: HostRuntime) -> Result<(), Fail> {
    let mut state = 1;
    for _ in 0..8 {
        let rule = Rule::new(16, 2, 0, &drawn(&mut state))?;
        has_rounds_of_both(&rt, &rule, &[256], &[256]);
    }
    Ok(())
}
