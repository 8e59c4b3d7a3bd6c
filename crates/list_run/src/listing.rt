//! Writes a list of rules, each line as soon as its rule is found. A beginning gives the shape of the rules and the
//! first letters of their tables.
ghost use Rattle.std.specs.Prelude.{◌≡◌, ◌≢◌, ◌⊎◌, ℕ, ◌^◌, ◌<◌, ◌≤◌, List, ◌++◌, length, take, is_some, IfOk, OnOk, OnErr, Err};
ghost use Rattle.std.specs.Io.KnownBytes.{Appends};
ghost use Rattle.word_image.specs.LocalRules.{IsRule};
ghost use Rattle.ca_io.specs.Faults.{Rose, CountsFaults};
ghost use Rattle.rule_lists.specs.Orders.{IsOrderFor};
ghost use Rattle.list_run.specs.Lines.{IsLineOf, count_line};
ghost use Rattle.list_run.specs.Lists.{AreGiven, IsList, IsListSoFar};

use crate::cut::Cut;
use crate::lines::{first_line, last_line, set_table};
use ca_io::{Failed, Sink, write_all};
use rule_lists::{Asked, FixedLetters, ListedRules, Property, order_for};
use rule_text::Beginning;
use std::alloc::{AllocError, Global};
use word_image::MOST_ENTRIES;

/// Writes the list of all rules that have the property and the letters of the beginning: a line for each rule, and a
/// line with the number of rules. Allocates the memory for the lines of rules before it writes anything, and allocates
/// again only for the last line.
pub fn write_list<T: Sink>(
    alloc: Global,
    property: Property,
    beginning: &Beginning,
    sink: &mut T,
) -> Result<(), Cut>
    ensures whole { OnOk result ((out : List ℕ) × IsList property beginning.now out
        × Appends (T.taken sink.old) (T.taken sink.new) out) }
    ensures failed { result ≡ Err Cut.Failed → (out : List ℕ) × (n : ℕ)
        × (IsList property beginning.now out ⊎ IsListSoFar property beginning.now out) × (n < length out)
        × Appends (T.taken sink.old) (T.taken sink.new) (take n out) }
    ensures memory { (fault : AllocError) → result ≡ Err (Cut.Memory fault) → (sink.new ≡ sink.old)
        ⊎ ((out : List ℕ) × IsListSoFar property beginning.now out × Appends (T.taken sink.old) (T.taken sink.new) out) }
    ensures rose { result ≡ Err Cut.Failed → Rose (T.faults sink.old) (T.faults sink.new) }
    ensures kept { result ≢ Err Cut.Failed → T.faults sink.new ≡ T.faults sink.old }
    ensures telling { is_some (T.taken sink.new) ≡ is_some (T.taken sink.old) }
{
    let letters = fixed_letters(beginning);
    let order = order_for(alloc, property, &beginning.rule)?;
    let mut line = first_line(alloc, &beginning.rule)?;
    let count = write_rules(property, beginning, &letters, &order, &mut line, sink)?;
    let last = last_line(alloc, count)?;
    write_all(sink, last.as_bytes())?;
    Ok(())
}

/// Writes a line for each rule of the list, and returns the number of rules. The count stops at 2^64 - 1.
fn write_rules<T: Sink>(
    property: Property,
    beginning: &Beginning,
    letters: &FixedLetters,
    order: &[u8],
    line: &mut [u8],
    sink: &mut T,
) -> Result<u64, Failed>
    requires order { IsOrderFor property beginning.now.rule.states beginning.now.rule.width order.now }
    requires line { IsLineOf beginning.now.rule line.old }
    requires given { AreGiven beginning.now letters.now }
    ensures all { IfOk result (λ count. (out : List ℕ) × IsListSoFar property beginning.now out
        × IsList property beginning.now (out ++ count_line count)
        × Appends (T.taken sink.old) (T.taken sink.new) out) }
    ensures part { OnErr result ((out : List ℕ) × (n : ℕ) × IsListSoFar property beginning.now out × (n < length out)
        × Appends (T.taken sink.old) (T.taken sink.new) (take n out)) }
    ensures telling { is_some (T.taken sink.new) ≡ is_some (T.taken sink.old) }
    ensures counted { CountsFaults (T.faults sink.old) (T.faults sink.new) result }
{
    let asked = Asked {
        property,
        shape: &beginning.rule,
        fixed: letters,
        order,
    };
    let mut count = 0u64;
    for rule in ListedRules::new(asked) {
        set_table(line, &beginning.rule, &rule);
        write_all(sink, line)?;
        count = count.saturating_add(1);
    }
    Ok(count)
}

/// Returns the letters of a beginning at their windows, and 255 at all other windows.
fn fixed_letters(beginning: &Beginning) -> FixedLetters
    ensures letters { AreGiven beginning.now result }
    ensures rule { IsRule beginning.now.rule }
{
    let mut letters = [u8::MAX; MOST_ENTRIES];
    for window in 0..beginning.given.min(beginning.rule.size()) {
        letters[usize::from(window)] = beginning.rule.at(window);
    }
    letters
}
