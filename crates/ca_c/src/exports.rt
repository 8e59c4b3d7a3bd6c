//! The functions that C calls, and the codes that they return.
ghost use Rattle.std.specs.Prelude.{◌≡◌, ◌≢◌, ◌+◌, ◌*◌, ◌^◌, ◌<◌, ◌≤◌, ◌==◌, ◌&&◌, not, length, pos};
ghost use Rattle.word_image.specs.RuleFaults.{rule_fault};
ghost use Rattle.ca_text.specs.Replies.{reply_text};
ghost use Rattle.ca_json.specs.Replies.{json_text};
ghost use Rattle.ca_c.specs.Calls.{IsHandedBack};
ghost use Rattle.ca_c.specs.Weights.{first_weights};
ghost use Rattle.rule_verdicts.specs.Numbers.{numbers_fault, AreVerdictBytes};
ghost use Rattle.c_structs.specs.NumberedVerdicts.{number_code};
ghost use Rattle.c_structs.specs.RuleParts.{IsRuleCall};
ghost use Rattle.kept_sums.specs.Stages.{AreKeptSums};
ghost use Rattle.c_structs.specs.RuleSums.{sums_code, IsFluxCall};
ghost use Rattle.rule_text.specs.RuleTexts.{rule_of_table};
ghost use Rattle.rule_verdicts.specs.Truths.{AreTruths};
ghost use Rattle.c_structs.specs.Verdicts.{AreNone, fault_code, truths_in};
ghost use Rattle.c_structs.specs.NextRules.{IsNext, IsWindowOrder};
ghost use Rattle.c_structs.specs.Images.{IsImageCall};
ghost use Rattle.c_structs.specs.Reports.{IsReportCall, named_weights, rule_with};
ghost use Rattle.tail_config.specs.TailValues.{config_of};

use crate::calls::{Form, SHORT, hand_back_once, put};
use crate::room_exports::report_in_room;
use c_structs::{
    RowRoom, RuleParts, RuleReport, RuleVerdicts, TailParts, fault_number, joined, letters_of,
    next_rule, number_of, property_of, range_number, read_rule, shape_rule, write_image,
    write_table,
};
use kept_sums::{Flux, KeptSums, Row, are_small, check_range, flux, kept_sums};
use rule_lists::{is_order, write_order};
use rule_verdicts::verdict_bytes;
use std::alloc::Global;
use word_image::{Rule, RuleFault, check_shape};

/// The version of the interface for C.
const VERSION: u32 = 2;

/// The code if memory runs out.
pub const MEMORY: u8 = 8;

/// The code if the call wrote its result: a report, a rule, an order of windows, or a flux.
pub const FOUND: u8 = 0;

/// The code if the number in a call doesn't stand for a property.
const NO_PROPERTY: u8 = 10;

/// The code if the order in a call doesn't list each window exactly once.
const NO_ORDER: u8 = 11;

/// The code if the caller fixes more letters of a table than there are windows.
const NO_BEGINNING: u8 = 12;

/// The code if no more rule with the property is left.
const NO_RULE: u8 = 13;

/// The code if a weight isn't from -2^56 to 2^56.
const GREAT_WEIGHT: u8 = 16;

/// The code if the rule doesn't keep the sum of these weights.
const NOT_KEPT: u8 = 17;

/// Returns the version of the interface. It changes whenever a function or a struct of the interface changes.
#[unsafe(no_mangle)]
pub extern "C" fn ca_version() -> u32
    ensures { result ≡ 2 }
{
    VERSION
}

/// Runs the command in a block of words over these bytes of input, as the program does. Writes the output to the
/// beginning of the buffer `output` and its length to `output_length`. Returns one of these codes:
///
/// - 0 to 5: the exit code of the program.
/// - 8: memory runs out. The length is 0.
/// - 9: a word of the block isn't UTF-8, or the last word has no 0 byte after it. The length is 0.
/// - 10: the buffer is too short. The length is that of the output.
///
/// With 8, 9 and 10 the buffer stays as it was.
#[unsafe(no_mangle)]
pub extern "C" fn ca_run(
    alloc: Global,
    words: &[u8],
    input: &[u8],
    output: &mut [u8],
    output_length: &mut usize,
) -> u8
    ensures handed_back { IsHandedBack reply_text words.now input.now output.old result output_length.new output.new }
    ensures no_fault { (result ≢ 6) × (result ≢ 7) }
{
    hand_back_once(alloc, Form::Text, words, input, output, output_length)
}

/// Runs the command as [`ca_run`] does, but writes the whole reply as one JSON object. A refused certificate and an
/// operand with a fault have such an object too. The codes and the lengths are those of [`ca_run`].
#[unsafe(no_mangle)]
pub extern "C" fn ca_run_json(
    alloc: Global,
    words: &[u8],
    input: &[u8],
    output: &mut [u8],
    output_length: &mut usize,
) -> u8
    ensures handed_back { IsHandedBack json_text words.now input.now output.old result output_length.new output.new }
    ensures no_fault { (result ≢ 6) × (result ≢ 7) }
{
    hand_back_once(alloc, Form::Json, words, input, output, output_length)
}

/// Reads the text of a rule, as all commands read it, into `rule`. Returns 0, or the number of the text's first fault. After a
/// fault `rule` stays as it was. Needs no memory.
#[unsafe(no_mangle)]
pub extern "C" fn ca_rule_of(text: &[u8], rule: &mut RuleParts) -> u8
    ensures { IsRuleCall text.now rule.old result rule.new }
{
    read_rule(text, rule)
}

/// Returns the verdicts on the rule with these states, this width, offset 0 and this table. If there is no such rule,
/// the result has the number of the first fault and no verdicts. Needs no memory.
#[unsafe(no_mangle)]
pub extern "C" fn ca_verdicts(states: u8, width: u8, table: &[u8]) -> RuleVerdicts
    ensures fault { result.fault ≡ fault_code (rule_fault states width (pos 0) table.now) }
    ensures no_offset { result.fault ≢ 4 }
    ensures are_true { result.fault ≡ 0 → AreTruths (rule_of_table states width table.now) (truths_in result) }
    ensures both { result.is_open ≡ (result.right && result.left) }
    ensures none { 0 < result.fault → AreNone result }
{
    match Rule::new(states, width, 0, table) {
        Ok(rule) => RuleVerdicts::of(&rule),
        Err(fault) => RuleVerdicts::none(fault),
    }
}

/// Writes a report on the rule with these states, this width, this offset and this table: its verdicts, each with the
/// least evidence. Writes the letters of the words in the report to the beginning of the buffer `letters`, and their
/// number to `length`. The list of weights has one weight for each letter. If the list is empty, each letter weighs its
/// own value.
///
/// If the rule or the list has a fault, the report has only the number of the first fault, without letters. The number
/// is 18 if the list has more or fewer weights than the rule has letters.
///
/// Returns 0 if it wrote the report. Returns 10 and the number of letters if the buffer is too short, and 8 and the
/// number 0 if memory runs out. With 10 and 8 the report and the buffer stay as they were.
#[unsafe(no_mangle)]
pub extern "C" fn ca_report(
    alloc: Global,
    states: u8,
    width: u8,
    offset: i8,
    table: &[u8],
    weights: &[u8],
    report: &mut RuleReport,
    letters: &mut [u8],
    length: &mut usize,
) -> u8
    ensures { IsReportCall (rule_with states width offset table.now) (named_weights weights.now) report.old letters.old result length.new report.new letters.new }
{
    match RowRoom::new(alloc) {
        Ok(mut room) => report_in_room(
            &mut room, states, width, offset, table, weights, report, letters, length,
        ),
        Err(_) => {
            *length = 0;
            MEMORY
        }
    }
}

/// Writes letters of the image of a configuration under the rule with these states, this width, this offset and this
/// table. Fills the buffer, starting with the letter at place `first`. The middle of the configuration begins at place
/// 0. Needs no memory.
///
/// Returns 0, or the number of the first of these faults. After a fault the buffer stays as it was.
///
/// - 1 to 6: the rule has this fault.
/// - 19: a period is empty.
/// - 20: a letter isn't below the number of states.
/// - 21: `first` is more than 2^61 away from place 0, or the buffer has room for more than 2^61 letters.
#[unsafe(no_mangle)]
pub extern "C" fn ca_image(
    states: u8,
    width: u8,
    offset: i8,
    table: &[u8],
    left: &[u8],
    middle: &[u8],
    right: &[u8],
    first: i64,
    letters: &mut [u8],
) -> u8
    ensures { IsImageCall (rule_with states width offset table.now) (config_of left.now middle.now right.now) first letters.old result letters.new }
{
    let parts = TailParts {
        left,
        middle,
        right,
    };
    match Rule::new(states, width, offset, table) {
        Ok(rule) => write_image(&rule, &parts, first, letters),
        Err(fault) => fault_number(fault),
    }
}

/// Writes the verdicts on rules with consecutive numbers, one byte for each rule. The rules have these states, this
/// width and offset 0. The number of the first rule is `first_high` times 2^64 plus `first_low`. A byte is the sum of 1
/// for surjective, 2 for injective, 4 for right-closing, 8 for left-closing, 16 for open and 32 for conserving. Returns
/// 0, or the number of the first fault. After a fault the bytes stay as they were. Needs no memory.
#[unsafe(no_mangle)]
pub extern "C" fn ca_verdict_bytes(
    states: u8,
    width: u8,
    first_high: u64,
    first_low: u64,
    bytes: &mut [u8],
) -> u8
    ensures done { result ≡ 0 → AreVerdictBytes states width (first_high * 2 ^ 64 + first_low) bytes.new }
    ensures fault { 1 ≤ length bytes.old → result ≡ number_code (numbers_fault states width (first_high * 2 ^ 64 + first_low) (length bytes.old)) }
    ensures kept { 0 < result → bytes.new ≡ bytes.old }
    ensures none { length bytes.old ≡ 0 → result ≡ 0 }
{
    if bytes.is_empty() {
        return 0;
    }
    match verdict_bytes(states, width, joined(first_high, first_low), bytes) {
        Ok(()) => 0,
        Err(fault) => number_of(fault),
    }
}

/// Writes the order of the windows in which [`ca_next_rule`] finds the rules with a property fast. The property is given
/// by its bit in the bytes of [`ca_verdict_bytes`]. Returns 0, or the number of the first fault. After a
/// fault the bytes stay as they were. Needs no memory.
#[unsafe(no_mangle)]
pub extern "C" fn ca_window_order(property: u8, states: u8, width: u8, order: &mut [u8]) -> u8
    ensures { IsWindowOrder property states width order.old result order.new }
{
    if let Err(fault) = check_shape(states, width, 0) {
        return fault_number(fault);
    }
    let Some(property) = property_of(property) else {
        return NO_PROPERTY;
    };
    let shape = shape_rule(states, width);
    if order.len() != usize::from(shape.size()) {
        return fault_number(RuleFault::Length);
    }
    write_order(property, &shape, order);
    FOUND
}

/// Finds the next rule of a shape that has a property, and writes its table to `table`. The rank of a table is the
/// number whose digits are its letters in this order of windows.
///
/// The new table has the least rank of all tables that have the property and begin with the letters of `begin`. A
/// letter of `begin` that isn't below the number of states stands for any letter. If `after` isn't 0, the rank must
/// also be greater than the rank of the old table.
///
/// Returns 0, or 13 if no rule is left, or the number of the first fault. Unless it returns 0, the table stays as it
/// was. Needs no memory.
#[unsafe(no_mangle)]
pub extern "C" fn ca_next_rule(
    property: u8,
    states: u8,
    width: u8,
    order: &[u8],
    begin: &[u8],
    after: u8,
    table: &mut [u8],
) -> u8
    ensures { IsNext property states width order.now begin.now (not (after == 0)) table.old result table.new }
{
    let last = match Rule::new(states, width, 0, table) {
        Ok(rule) => rule,
        Err(fault) => return fault_number(fault),
    };
    let Some(property) = property_of(property) else {
        return NO_PROPERTY;
    };
    if !is_order(last.size(), order) {
        return NO_ORDER;
    }
    if begin.len() > usize::from(last.size()) {
        return NO_BEGINNING;
    }
    match next_rule(property, &letters_of(begin), order, after != 0, &last) {
        Some(rule) => {
            write_table(&rule, table);
            FOUND
        }
        None => NO_RULE,
    }
}

/// Finds all sums of weights of words of length `range` that the rule with these states, this width, offset 0 and this
/// table keeps, and writes a basis of them to `sums`. Returns 0, or the number of the first fault. After a fault `sums`
/// stays as it was. Needs no memory.
#[unsafe(no_mangle)]
pub extern "C" fn ca_kept_sums(
    states: u8,
    width: u8,
    table: &[u8],
    range: u8,
    sums: &mut KeptSums,
) -> u8
    ensures fault { result ≡ sums_code states width table.now range }
    ensures done { result ≡ 0 → AreKeptSums (rule_of_table states width table.now) range sums.new.rows sums.new.counts sums.new.rings }
    ensures kept { 0 < result → sums.new ≡ sums.old }
{
    let made = Rule::new(states, width, 0, table);
    let rule = match made {
        Ok(rule) => rule,
        Err(fault) => return fault_number(fault),
    };
    if let Err(fault) = check_range(states, range) {
        return range_number(fault);
    }
    *sums = kept_sums(&rule, range);
    0
}

/// Writes the flux of weights of words of length `range`, for the rule with these states, this width, offset 0 and this
/// table. The flux has a number for each word of width + range - 2 letters, in the order of their values. The number
/// for the word of zeros is 0, and so are the numbers after the last word. Reads only as many numbers of `weights` as
/// there are words of length `range`. Needs no memory.
///
/// Returns 0, or the number of the first of these faults. After a fault `numbers` stays as it was.
///
/// - 1 to 6: the rule has this fault.
/// - 14: `range` is 0.
/// - 15: there are more than 16 words of this length.
/// - 16: a weight isn't from -2^56 to 2^56.
/// - 17: the rule doesn't keep the sum.
#[unsafe(no_mangle)]
pub extern "C" fn ca_flux(
    states: u8,
    width: u8,
    table: &[u8],
    range: u8,
    weights: &Row,
    numbers: &mut Flux,
) -> u8
    ensures { IsFluxCall states width table.now range (first_weights (states ^ range) weights.now) numbers.old result numbers.new }
{
    let made = Rule::new(states, width, 0, table);
    let rule = match made {
        Ok(rule) => rule,
        Err(fault) => return fault_number(fault),
    };
    if let Err(fault) = check_range(states, range) {
        return range_number(fault);
    }
    let weights = first_weights(states, range, weights);
    if !are_small(&weights) {
        return GREAT_WEIGHT;
    }
    match flux(&rule, range, &weights) {
        Some(found) => {
            *numbers = found;
            FOUND
        }
        None => NOT_KEPT,
    }
}

/// Returns the weights of the words of length `range`. The numbers after them are 0.
fn first_weights(states: u8, range: u8, weights: &Row) -> Row
    requires { states ^ range ≤ 16 }
    ensures { result ≡ first_weights (states ^ range) weights.now }
{
    let count = usize::from(states).pow(u32::from(range));
    let mut first = *weights;
    first[count..].fill(0);
    first
}
