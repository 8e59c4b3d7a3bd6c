//! Functions that read operands which are numbers in decimal digits.
ghost use Rattle.std.specs.Prelude.{◌≡◌, ◌≤◌, MatchOption};
ghost use Rattle.rule_text.specs.RuleTexts.{IsDecimal, decimal_value};
ghost use Rattle.ca_commands.specs.Operands.{IsCount, IsSeed};
ghost use Rattle.ca_commands.specs.WeightTexts.{IsWeightText};

use rule_text::{decimal_number, is_decimal};

/// Reads a count of rules: a number from 1 to 4,096, in at most four decimal digits.
pub fn count_of(text: &[u8]) -> Option<u16>
    ensures { MatchOption result (¬ IsCount text.now)
        (λ count. IsCount text.now × (count ≡ decimal_value text.now)) }
{
    let count = decimal(text, 4)?;
    if (1..=4096).contains(&count) {
        Some(count as u16)
    } else {
        None
    }
}

/// Reads the weight of a letter: a number of at most 255, in at most three decimal digits.
pub fn weight(text: &[u8]) -> Option<u8>
    ensures { MatchOption result (¬ IsWeightText text.now)
        (λ weight. IsWeightText text.now × (weight ≡ decimal_value text.now)) }
{
    u8::try_from(decimal(text, 3)?).ok()
}

/// Reads a seed: a number below 2^64, in at most twenty decimal digits.
pub fn seed(text: &[u8]) -> Option<u64>
    ensures { MatchOption result (¬ IsSeed text.now)
        (λ seed. IsSeed text.now × (seed ≡ decimal_value text.now)) }
{
    u64::try_from(decimal(text, 20)?).ok()
}

/// Reads a number with at least one and at most `most` decimal digits. `most` is at most 2.
pub fn small(text: &[u8], most: usize) -> Option<u8>
    requires { most ≤ 2 }
    ensures { MatchOption result (¬ IsDecimal 1 most text.now)
        (λ number. IsDecimal 1 most text.now × (number ≡ decimal_value text.now)) }
{
    let number = decimal(text, most)?;
    Some(number as u8)
}

/// Reads a number with at least one and at most `most` decimal digits. `most` is at most 38.
fn decimal(text: &[u8], most: usize) -> Option<u128>
    requires { most ≤ 38 }
    ensures { MatchOption result (¬ IsDecimal 1 most text.now)
        (λ number. IsDecimal 1 most text.now × (number ≡ decimal_value text.now)) }
{
    if is_decimal(text, most) {
        decimal_number(text)
    } else {
        None
    }
}
