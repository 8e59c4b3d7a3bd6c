//! The lines of an inverse map, for example `window 1 2`, `offset -1`, `map 01` and `rule 2:2:-1:t0011`.
ghost use Rattle.std.specs.Prelude.{◌++◌, codes};
ghost use Rattle.rule_text.specs.PrintedRules.{offset_text};
ghost use Rattle.ca_text.specs.Reports.{line};
ghost use Rattle.ca_text.specs.Lines.{map_lines, rule_text};
ghost use Rattle.ca_text.specs.Rooms.{AppendsAtMost, IsAppended};

use crate::output::Output;
use crate::report::write_rule;
use ca_questions::Inverse;
use inverse_table::LentMap;
use std::alloc::AllocError;
use word_image::Rule;

/// Appends the four lines of an inverse map: its window, its offset, its letters, and the map as a rule.
pub fn write_inverse(output: &mut Output, inverse: &Inverse) -> Result<(), AllocError>
    ensures appended { IsAppended result output.old output.new (map_lines inverse.now.n inverse.now.c inverse.now.map inverse.now.rule) }
    ensures few { AppendsAtMost 66200 result output.old output.new }
{
    output.push_line_with_numbers("window ", inverse.n, inverse.c)?;
    write_offset(output, &inverse.map)?;
    output.push_line_with_word("map ", inverse.map.table())?;
    write_map_rule(output, &inverse.rule)
}

/// Appends the line with the offset of an inverse map.
fn write_offset(output: &mut Output, map: &LentMap) -> Result<(), AllocError>
    ensures appended { IsAppended result output.old output.new (line (codes "offset " ++ offset_text map.now.offset)) }
    ensures few { AppendsAtMost 50 result output.old output.new }
{
    output.push(b"offset ")?;
    output.push_offset(i64::from(map.offset()))?;
    output.push(b"\n")
}

/// Appends the line with the inverse map as a rule, or `rule none` if the map breaks a limit of rules.
fn write_map_rule(output: &mut Output, rule: &Option<Rule>) -> Result<(), AllocError>
    ensures appended { IsAppended result output.old output.new (line (codes "rule " ++ rule_text rule.now)) }
    ensures few { AppendsAtMost 410 result output.old output.new }
{
    match rule {
        Some(rule) => write_rule(output, rule),
        None => output.push_line("rule none"),
    }
}
