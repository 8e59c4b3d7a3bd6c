//! The function `rule_of_parts`, which makes a rule of its states, width, offset and table.
ghost use Rattle.std.specs.Prelude.{◌≡◌};
ghost use Rattle.word_image.specs.LocalRules.{IsRule};

use word_image::Rule;

/// Makes the rule with these states, this width, this offset and this table. Together they must be the parts of an
/// accepted rule.
pub(crate) fn rule_of_parts(k: u8, m: u8, o: i8, table: &[u8]) -> Rule
    requires { IsRule (record { states = k; width = m; offset = o; table = table.now }) }
    ensures { result ≡ record { states = k; width = m; offset = o; table = table.now } }
{
    Rule::new(k, m, o, table).unwrap()
}
