//! The parts of a report, one for each property: a verdict and the least evidence for it. The words of the evidence are
//! in a buffer of letters, and a row says where a word is.
ghost use Rattle.std.specs.Prelude.{◌≡◌, ◌≤◌, ◌+◌, ◌++◌, length, vec_len, vec_capacity};
ghost use Rattle.short_words.specs.declared.lent_word.TheConstants.{MOST_LENT};
ghost use Rattle.rule_verdicts.specs.Reports.{injective_of, side_in, sum_of};
ghost use Rattle.c_structs.specs.LetterRooms.{most_pair, most_ring, most_split};
ghost use Rattle.c_structs.specs.ReportParts.{SaysSurjective, SaysInjective, SaysSide, SaysConserving, orphan_letters, injective_letters, side_letters, sum_letters, flux_row};

use crate::letter_rows::{
    LetterRow, NO_ROW, NO_SPLIT, NO_TWINS, SplitRows, TwinRows, add_split, add_twins, add_word,
};
use closing_test::LentClosing;
use flux_conserve::Keeping;
use rule_verdicts::Injectivity;
use short_words::LentWord;
use word_image::Rule;

/// The greatest number of nodes of a rule. A flux has one entry for each node.
pub const MOST_NODES: usize = 16;

/// Whether a rule is surjective. If it isn't, `orphan` is the row of its orphan.
#[derive(Clone, Copy)]
pub struct Surjective {
    pub holds: u8,
    pub orphan: LetterRow,
}

/// Whether a rule is injective. If it is, `window` letters of an image determine the letter at `place` of each
/// preimage. If it isn't, `twins` has the rows of its twins.
#[derive(Clone, Copy)]
pub struct Injective {
    pub holds: u8,
    pub window: u32,
    pub place: u32,
    pub twins: TwinRows,
}

/// Whether a rule closes on a side. If it does, `ahead` is its look-ahead. If it doesn't, `split` has the rows of its
/// split.
#[derive(Clone, Copy)]
pub struct Side {
    pub holds: u8,
    pub ahead: u32,
    pub split: SplitRows,
}

/// Whether a rule is conserving. If it is, `flux` has the entries of its flux, one for each of its `nodes` nodes. If it
/// isn't, `ring` is the row of its ring.
#[derive(Clone, Copy)]
pub struct Conserving {
    pub holds: u8,
    pub nodes: u8,
    pub flux: [i32; MOST_NODES],
    pub ring: LetterRow,
}

/// Returns the part of the report that says whether the rule is surjective. If there is an orphan, its letters are
/// appended to `letters`.
pub fn add_surjective(letters: &mut Vec<u8>, orphan: &Option<LentWord>) -> Surjective
    requires { vec_len letters.old + MOST_LENT ≤ vec_capacity letters.old }
    ensures letters { letters.new.items ≡ letters.old.items ++ orphan_letters orphan.now }
    ensures part { SaysSurjective letters.new.items result.holds result.orphan orphan.now }
    ensures room { (vec_len letters.new ≤ vec_len letters.old + MOST_LENT) × (vec_capacity letters.old ≤ vec_capacity letters.new) }
{
    match orphan {
        None => Surjective {
            holds: 1,
            orphan: NO_ROW,
        },
        Some(word) => Surjective {
            holds: 0,
            orphan: add_word(letters, word.as_slice()),
        },
    }
}

/// Returns the part of the report that says whether the rule is injective. If there are twins, their letters are
/// appended to `letters`.
pub fn add_injective(letters: &mut Vec<u8>, part: &Injectivity) -> Injective
    requires { vec_len letters.old + most_pair ≤ vec_capacity letters.old }
    ensures letters { letters.new.items ≡ letters.old.items ++ injective_letters (injective_of part.now) }
    ensures part { SaysInjective letters.new.items result.holds result.window result.place result.twins (injective_of part.now) }
    ensures room { (vec_len letters.new ≤ vec_len letters.old + most_pair) × (vec_capacity letters.old ≤ vec_capacity letters.new) }
{
    match part {
        Injectivity::Window { n, c } => Injective {
            holds: 1,
            window: u32::from(*n),
            place: u32::from(*c),
            twins: NO_TWINS,
        },
        Injectivity::Twins(pair) => Injective {
            holds: 0,
            window: 0,
            place: 0,
            twins: add_twins(letters, pair),
        },
    }
}

/// Returns the part of the report that says whether the rule closes on a side. If there is a split, its letters are
/// appended to `letters`.
pub fn add_side(letters: &mut Vec<u8>, part: &LentClosing) -> Side
    requires { vec_len letters.old + most_split ≤ vec_capacity letters.old }
    ensures letters { letters.new.items ≡ letters.old.items ++ side_letters (side_in part.now) }
    ensures part { SaysSide letters.new.items result.holds result.ahead result.split (side_in part.now) }
    ensures room { (vec_len letters.new ≤ vec_len letters.old + most_split) × (vec_capacity letters.old ≤ vec_capacity letters.new) }
{
    match part {
        LentClosing::Ahead(n) => Side {
            holds: 1,
            ahead: u32::from(*n),
            split: NO_SPLIT,
        },
        LentClosing::Split(x, y) => Side {
            holds: 0,
            ahead: 0,
            split: add_split(letters, x, y),
        },
    }
}

/// Returns the part of the report that says whether this rule is conserving. If there is a ring, its letters are
/// appended to `letters`.
pub fn add_conserving(letters: &mut Vec<u8>, rule: &Rule, part: &Keeping) -> Conserving
    requires { vec_len letters.old + most_ring ≤ vec_capacity letters.old }
    ensures letters { letters.new.items ≡ letters.old.items ++ sum_letters (sum_of rule.now part.now) }
    ensures part { SaysConserving letters.new.items result.holds result.nodes result.flux result.ring (sum_of rule.now part.now) }
    ensures room { (vec_len letters.new ≤ vec_len letters.old + most_ring) × (vec_capacity letters.old ≤ vec_capacity letters.new) }
{
    match part {
        Keeping::Flux(flows) => {
            let flux = &flows[..usize::from(rule.nodes())];
            Conserving {
                holds: 1,
                nodes: flux.len() as u8,
                flux: numbers(flux),
                ring: NO_ROW,
            }
        }
        Keeping::Ring(ring) => Conserving {
            holds: 0,
            nodes: 0,
            flux: [0; MOST_NODES],
            ring: add_word(letters, ring.letters()),
        },
    }
}

/// Returns the entries of a flux. The entries after them are 0.
fn numbers(flows: &[i32]) -> [i32; MOST_NODES]
    requires { length flows.now ≤ 16 }
    ensures { result ≡ flux_row flows.now }
{
    let mut row = [0; MOST_NODES];
    row[..flows.len()].copy_from_slice(flows);
    row
}
