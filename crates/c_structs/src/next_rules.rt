//! Finds the rules of a shape that have a property, one after another, for calls from C.
ghost use Rattle.std.specs.Prelude.{◌≡◌, ◌^◌, ◌≤◌, IsNone, IfSome, MatchOption, length, pos};
ghost use Rattle.word_image.specs.LocalRules.{IsShape};
ghost use Rattle.rule_lists.specs.Ranks.{IsOrder};
ghost use Rattle.rule_lists.specs.Listed.{IsFirst, NoneIs};
ghost use Rattle.c_structs.specs.NextRules.{IsNoProperty, IsToCome, fixed_letters, property_number};

use rule_lists::{Asked, FixedLetters, ListedRules, Property};
use word_image::{MOST_ENTRIES, Rule};

/// Returns the property that this number stands for: 1, 2, 4, 8, 16 or 32. A byte of verdicts is the sum of these
/// numbers. Returns None for other numbers.
pub fn property_of(number: u8) -> Option<Property>
    ensures some { IfSome result (λ property. number ≡ property_number property) }
    ensures none { IsNone result → IsNoProperty number }
{
    match number {
        1 => Some(Property::Surjective),
        2 => Some(Property::Injective),
        4 => Some(Property::RightClosing),
        8 => Some(Property::LeftClosing),
        16 => Some(Property::Open),
        32 => Some(Property::Conserving),
        _ => None,
    }
}

/// Returns some rule of this shape at offset 0. Callers use only its shape.
pub fn shape_rule(states: u8, width: u8) -> Rule
    requires { IsShape states width (pos 0) }
    ensures states { result.states ≡ states }
    ensures width { result.width ≡ width }
    ensures offset { result.offset ≡ pos 0 }
{
    Rule::from_fn(states, width, 0, |_| 0)
}

/// Returns the fixed letters of a search for tables that begin with these letters. The letters after them aren't fixed.
pub fn letters_of(begin: &[u8]) -> FixedLetters
    requires { length begin.now ≤ 256 }
    ensures { result ≡ fixed_letters begin.now }
{
    let mut letters = [u8::MAX; MOST_ENTRIES];
    letters[..begin.len()].copy_from_slice(begin);
    letters
}

/// Returns the rule of least rank that has the property, the fixed letters and the shape of the given rule. If `after`
/// is true, the rank must also be greater than the rank of the given rule. The rank of a rule is the number whose
/// digits are its letters in this order of windows. Returns None if there is no such rule.
pub fn next_rule(
    property: Property,
    letters: &FixedLetters,
    order: &[u8],
    after: bool,
    rule: &Rule,
) -> Option<Rule>
    requires { IsOrder (rule.now.states ^ rule.now.width) order.now }
    ensures { MatchOption result
        (NoneIs property rule.now.states rule.now.width letters.now (IsToCome after rule.now.states order.now rule.now.table))
        (IsFirst property rule.now.states rule.now.width letters.now order.now (IsToCome after rule.now.states order.now rule.now.table)) }
{
    let asked = Asked {
        property,
        shape: rule,
        fixed: letters,
        order,
    };
    let mut search = if after {
        ListedRules::resume_after(asked, rule)
    } else {
        ListedRules::new(asked)
    };
    search.next()
}

/// Copies the table of a rule to `table`.
pub fn write_table(rule: &Rule, table: &mut [u8])
    requires { length table.old ≡ length rule.now.table }
    ensures { table.new ≡ rule.now.table }
{
    table.copy_from_slice(rule.table());
}
