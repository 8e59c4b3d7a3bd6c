//! The verdicts of rules with consecutive Wolfram numbers, in one byte for each rule.
ghost use Rattle.std.specs.Prelude.{◌≡◌, ℕ, ◌+◌, ◌-◌, ◌^◌, ◌<◌, ◌≤◌, None, Some, length, reverse, slice_index, sum, MatchResult};
ghost use Rattle.word_image.specs.LocalRules.{IsRule, IsWord, value, most_windows};
ghost use Rattle.rule_text.specs.RuleTexts.{rule_of_table};
ghost use Rattle.rule_verdicts.specs.Numbers.{numbers_fault, IsVerdictByte, AreVerdictBytes};

use crate::truths::Truths;
use flux_conserve::{is_mean, letter_sum};
use rule_text::{TextFault, numbered};
use word_image::MOST_ENTRIES;

/// Writes the verdicts of rules with consecutive Wolfram numbers, starting at `first`. The rules have k states, width m
/// and offset 0. Byte i is `Truths::byte` of the rule with the number `first` + i. If no rule has some of these
/// numbers, returns the first fault and writes nothing. Needs no memory.
pub fn verdict_bytes(k: u8, m: u8, first: u128, bytes: &mut [u8]) -> Result<(), TextFault>
    requires { 1 ≤ length bytes.old }
    ensures { MatchResult result
        (λ _. (numbers_fault k m first (length bytes.old) ≡ None) × AreVerdictBytes k m first bytes.new)
        (λ fault. (numbers_fault k m first (length bytes.old) ≡ Some fault) × (bytes.new ≡ bytes.old)) }
{
    let Some(last) = first.checked_add(bytes.len() as u128 - 1) else {
        return Err(fault_past_all(k, m));
    };
    numbered(k, m, 0, last)?;
    let rule = numbered(k, m, 0, first)?;
    let mut table = [0; MOST_ENTRIES];
    let table = &mut table[..rule.table().len()];
    table.copy_from_slice(rule.table());
    write_bytes(k, m, table, bytes);
    Ok(())
}

/// Returns the first fault of consecutive Wolfram numbers if the last one is 2^128 or more. It is a fault of k or m, or
/// `Number`, since no rule has such a number.
pub fn fault_past_all(k: u8, m: u8) -> TextFault
    ensures { (first count : ℕ) → 2 ^ 128 ≤ first + count - 1 → numbers_fault k m first count ≡ Some result }
{
    match numbered(k, m, 0, 0) {
        Ok(_) => TextFault::Number,
        Err(fault) => fault,
    }
}

/// Writes a byte of verdicts for each rule, with consecutive Wolfram numbers. The first rule has the table `table`.
/// Changes `table` to the tables of the other rules, one after another.
fn write_bytes(k: u8, m: u8, table: &mut [u8], bytes: &mut [u8])
    requires rule { IsRule (rule_of_table k m table.old) }
    requires room { value k (reverse table.old) + length bytes.old ≤ k ^ length table.old }
    ensures { AreVerdictBytes k m (value k (reverse table.old)) bytes.new }
{
    let mut total = letter_sum(table);
    for byte in bytes.iter_mut() {
        *byte = verdict_byte(k, m, table, total);
        total = next_table(k, table, total);
    }
}

/// Returns the byte of verdicts for the rule with this table. `total` is the sum of the letters of the table.
fn verdict_byte(k: u8, m: u8, table: &[u8], total: u16) -> u8
    requires rule { IsRule (rule_of_table k m table.now) }
    requires total { total ≡ sum table.now }
    ensures { IsVerdictByte (rule_of_table k m table.now) result }
{
    // The letters in the table of a surjective or conserving rule have the same mean as the letters 0 to k - 1.
    if !is_mean(k, table.len() as u16, total) {
        return Truths::not_surjective(false).byte();
    }
    Truths::past_sum(k, m, table).byte()
}

/// Turns a table into the table with the next Wolfram number, and the last table into the first one. The first letter
/// is the least significant digit of the number. `total` is the sum of the letters of the table. Returns the sum of the
/// new table.
pub fn next_table(k: u8, table: &mut [u8], total: u16) -> u16
    requires word { IsWord k table.old }
    requires few { length table.old ≤ most_windows }
    requires total { total ≡ sum table.old }
    ensures word { IsWord k table.new }
    ensures total { result ≡ sum table.new }
    ensures next { value k (reverse table.old) + 1 < k ^ length table.old → value k (reverse table.new) ≡ value k (reverse table.old) + 1 }
{
    let mut total = total;
    for place in 0..table.len() {
        let letter = table[place];
        if letter + 1 < k {
            table[place] = letter + 1;
            return total + 1;
        }
        table[place] = 0;
        total -= u16::from(letter);
    }
    total
}
