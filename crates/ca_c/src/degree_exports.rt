//! The functions that C calls for the degree of a rule.
ghost use Rattle.std.specs.Prelude.{◌≡◌, ◌≢◌, true, false};
ghost use Rattle.c_structs.specs.Reports.{rule_with};
ghost use Rattle.c_structs.specs.Degrees.{IsDegreeCall};

use crate::calls::{SHORT, put};
use crate::exports::{FOUND, MEMORY};
use crate::room_exports::NO_ROOM;
use c_structs::{DegreeRoom, RuleDegree};
use room_handles::RoomHandle;
use std::alloc::Global;

/// Finds the degree of the rule with these states, this width, this offset and this table, its multipliers, and the
/// fewest last nodes and first nodes that a word has. Writes the letters of the two words that have so few to the
/// beginning of the buffer `letters`, and their number to `length`.
///
/// If the rule has a fault, the struct has only the number of the first fault, without letters. If the rule isn't
/// surjective, the degree and the multipliers are 0.
///
/// Returns 0 if it wrote the struct. Returns 10 and the number of letters if the buffer is too short, and 8 and the
/// number 0 if memory runs out. With 10 and 8 the struct and the buffer stay as they were.
#[unsafe(no_mangle)]
pub extern "C" fn ca_degree(
    alloc: Global,
    states: u8,
    width: u8,
    offset: i8,
    table: &[u8],
    degree: &mut RuleDegree,
    letters: &mut [u8],
    length: &mut usize,
) -> u8
    ensures { IsDegreeCall (rule_with states width offset table.now) degree.old letters.old result length.new degree.new letters.new }
{
    match DegreeRoom::new(alloc) {
        Ok(mut room) => degree_over(
            &mut room, states, width, offset, table, degree, letters, length,
        ),
        Err(_) => {
            *length = 0;
            MEMORY
        }
    }
}

/// Finds the degree of a rule as [`ca_degree`] does, but with the memory of the handle's room, so it never returns 8.
/// Returns 22 and the number 0 if the handle has no room. Then the struct and the buffer stay as they were.
#[unsafe(no_mangle)]
pub extern "C" fn ca_degree_in(
    alloc: Global,
    handle: &mut RoomHandle,
    states: u8,
    width: u8,
    offset: i8,
    table: &[u8],
    degree: &mut RuleDegree,
    letters: &mut [u8],
    length: &mut usize,
) -> u8
    ensures found { handle.old.is_open ≡ true → IsDegreeCall (rule_with states width offset table.now) degree.old letters.old result length.new degree.new letters.new }
    ensures memory { result ≢ 8 }
    ensures closed { handle.old.is_open ≡ false →
        (result ≡ 22) × (length.new ≡ 0) × (degree.new ≡ degree.old) × (letters.new ≡ letters.old) }
    ensures kept { handle.new.is_open ≡ handle.old.is_open }
{
    let Some(mut room) = handle.take(alloc) else {
        *length = 0;
        return NO_ROOM;
    };
    let code = degree_over(
        &mut room.degrees,
        states,
        width,
        offset,
        table,
        degree,
        letters,
        length,
    );
    handle.put(room);
    code
}

/// Finds the degree of a rule with the memory of a room, and returns 0. If the buffer is too short for the letters, returns
/// 10, and the struct and the buffer stay as they were.
fn degree_over(
    room: &mut DegreeRoom,
    states: u8,
    width: u8,
    offset: i8,
    table: &[u8],
    degree: &mut RuleDegree,
    letters: &mut [u8],
    length: &mut usize,
) -> u8
    ensures found { IsDegreeCall (rule_with states width offset table.now) degree.old letters.old result length.new degree.new letters.new }
    ensures memory { result ≢ 8 }
{
    let made = room.find(states, width, offset, table);
    let found = room.letters();
    *length = found.len();
    if put(found, letters) {
        *degree = made;
        FOUND
    } else {
        SHORT
    }
}
