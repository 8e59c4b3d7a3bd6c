//! The lines that the program writes: the fault of a beginning, a rule, and the number of rules. A beginning is the
//! text of a rule that may end after some letters of the table.
ghost use Rattle.std.specs.Prelude.{◌≡◌, ◌^◌, IfOk, length, map, string_bytes};
ghost use Rattle.std.specs.Prelude.{ℕ, ◌<◌, ◌-◌};
ghost use Rattle.word_image.specs.LocalRules.{IsRule};
ghost use Rattle.word_image.specs.Digits.{lower_digit};
ghost use Rattle.list_run.specs.Lines.{IsLineOf, count_line, fault_line, rule_line};

use rule_text::{TextFault, fault_kind, print};
use std::alloc::{AllocError, Global};
use word_image::{Rule, digit};

/// Returns the line with the fault of a beginning. The only error is lack of memory.
pub fn fault_line(alloc: Global, fault: TextFault) -> Result<String, AllocError>
    ensures { IfOk result (λ text. string_bytes text ≡ fault_line fault) }
{
    let kind = fault_kind(alloc, fault)?;
    format!(in alloc; "rule fault 1 {kind}\n")
}

/// Returns the line of a rule: its text and the end of the line. The only error is lack of memory.
pub fn first_line(alloc: Global, rule: &Rule) -> Result<Vec<u8>, AllocError>
    requires { IsRule rule.now }
    ensures { IfOk result (λ line. IsLineOf rule.now line.items) }
{
    let mut line = print(alloc, rule)?;
    line.push(b'\n')?;
    Ok(line)
}

/// Returns the line with the number of rules, for example `rules 3`. The only error is lack of memory.
pub fn last_line(alloc: Global, count: u64) -> Result<String, AllocError>
    ensures { IfOk result (λ text. string_bytes text ≡ count_line count) }
{
    format!(in alloc; "rules {count}\n")
}

/// Changes the line of the rule `shape` into the line of another rule with the same states and width. The offset in
/// the line stays the offset of `shape`. Needs no memory.
pub fn set_table(line: &mut [u8], shape: &Rule, rule: &Rule)
    requires line { IsLineOf shape.now line.old }
    requires states { rule.now.states ≡ shape.now.states }
    requires width { rule.now.width ≡ shape.now.width }
    ensures { line.new ≡ rule_line shape.now rule.now }
{
    let end = line.len() - 1;
    let place = end - usize::from(rule.size());
    write_digits(&mut line[place..end], rule);
}

/// Writes the letters of a rule's table as hexadecimal digits.
fn write_digits(digits: &mut [u8], rule: &Rule)
    requires { length digits.old ≡ rule.now.states ^ rule.now.width }
    ensures { digits.new ≡ map lower_digit rule.now.table }
{
    for window in 0..rule.size() {
        digits[usize::from(window)] = digit(rule.at(window));
    }
}
