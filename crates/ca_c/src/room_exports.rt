//! The functions that C calls for rooms: a room is opened and closed, and calls over it use its memory.
ghost use Rattle.std.specs.Prelude.{◌≡◌, ◌≢◌, true, false};
ghost use Rattle.ca_text.specs.Replies.{reply_text};
ghost use Rattle.c_structs.specs.Reports.{IsReportCall, named_weights, rule_with};
ghost use Rattle.ca_c.specs.Calls.{IsHandedBack, MayLackMemory};

use crate::calls::{Form, SHORT, hand_back, put};
use crate::exports::{FOUND, MEMORY};
use c_structs::{RowRoom, RuleReport};
use room_handles::{CallRoom, RoomHandle};
use std::alloc::Global;

/// The code if the handle of a call has no room.
pub const NO_ROOM: u8 = 22;

/// Takes the memory of a room, some 17 MB, and puts the room into the handle. Returns 0, or 8 if memory runs out. If the
/// handle had a room, that room's memory is given back once the new room is there. With 8 the handle stays as it was.
#[unsafe(no_mangle)]
pub extern "C" fn ca_room_open(alloc: Global, handle: &mut RoomHandle) -> u8
    ensures opened { result ≡ 0 → handle.new.is_open ≡ true }
    ensures kept { result ≢ 0 → (result ≡ 8) × (handle.new.is_open ≡ handle.old.is_open) }
{
    match CallRoom::boxed(alloc) {
        Ok(room) => {
            handle.put(room);
            FOUND
        }
        Err(_) => MEMORY,
    }
}

/// Gives back the memory of the handle's room, if it has one. Then the handle has no room.
#[unsafe(no_mangle)]
pub extern "C" fn ca_room_close(alloc: Global, handle: &mut RoomHandle)
    ensures { handle.new.is_open ≡ false }
{
    drop(handle.take(alloc));
}

/// Runs the command as [`ca_run`](crate::ca_run) does, but with the memory of the handle's room. So it returns 8 only for
/// `certify`, `brief`, `classes` and `check`. Returns 22 and the length 0 if the handle has no room. Then the buffer stays
/// as it was.
#[unsafe(no_mangle)]
pub extern "C" fn ca_run_in(
    alloc: Global,
    handle: &mut RoomHandle,
    words: &[u8],
    input: &[u8],
    output: &mut [u8],
    output_length: &mut usize,
) -> u8
    ensures handed_back { handle.old.is_open ≡ true →
        IsHandedBack reply_text words.now input.now output.old result output_length.new output.new }
    ensures closed { handle.old.is_open ≡ false →
        (result ≡ 22) × (output_length.new ≡ 0) × (output.new ≡ output.old) }
    ensures no_fault { (result ≢ 6) × (result ≢ 7) }
    ensures memory { result ≡ 8 → MayLackMemory words.now }
    ensures kept { handle.new.is_open ≡ handle.old.is_open }
{
    let Some(mut room) = handle.take(alloc) else {
        *output_length = 0;
        return NO_ROOM;
    };
    let code = hand_back(
        Form::Text,
        &mut room.commands,
        words,
        input,
        output,
        output_length,
    );
    handle.put(room);
    code
}

/// Writes a report as [`ca_report`](crate::ca_report) does, but with the memory of the handle's room, so it never returns
/// 8. Returns 22 and the number 0 if the handle has no room. Then the report and the buffer stay as they were.
#[unsafe(no_mangle)]
pub extern "C" fn ca_report_in(
    alloc: Global,
    handle: &mut RoomHandle,
    states: u8,
    width: u8,
    offset: i8,
    table: &[u8],
    weights: &[u8],
    report: &mut RuleReport,
    letters: &mut [u8],
    length: &mut usize,
) -> u8
    ensures reported { handle.old.is_open ≡ true →
        IsReportCall (rule_with states width offset table.now) (named_weights weights.now) report.old letters.old result length.new report.new letters.new }
    ensures memory { result ≢ 8 }
    ensures closed { handle.old.is_open ≡ false →
        (result ≡ 22) × (length.new ≡ 0) × (report.new ≡ report.old) × (letters.new ≡ letters.old) }
    ensures kept { handle.new.is_open ≡ handle.old.is_open }
{
    let Some(mut room) = handle.take(alloc) else {
        *length = 0;
        return NO_ROOM;
    };
    let code = report_in_room(
        &mut room.reports,
        states,
        width,
        offset,
        table,
        weights,
        report,
        letters,
        length,
    );
    handle.put(room);
    code
}

/// Writes a report with the memory of a room, and returns 0. If the buffer is too short for the letters, returns 10, and
/// the report and the buffer stay as they were.
pub fn report_in_room(
    room: &mut RowRoom,
    states: u8,
    width: u8,
    offset: i8,
    table: &[u8],
    weights: &[u8],
    report: &mut RuleReport,
    letters: &mut [u8],
    length: &mut usize,
) -> u8
    ensures reported { IsReportCall (rule_with states width offset table.now) (named_weights weights.now) report.old letters.old result length.new report.new letters.new }
    ensures memory { result ≢ 8 }
{
    let made = room.report(states, width, offset, table, weights);
    let found = room.letters();
    *length = found.len();
    if put(found, letters) {
        *report = made;
        FOUND
    } else {
        SHORT
    }
}
