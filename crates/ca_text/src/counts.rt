//! The lines of a summary, which counts the rules with each property.
ghost use Rattle.std.specs.Prelude.{◌+◌, ◌++◌, codes, length};
ghost use Rattle.ca_questions.specs.Values.{counts_of};
ghost use Rattle.ca_text.specs.Lines.{count_line, counts_lines};
ghost use Rattle.ca_text.specs.Rooms.{AppendsAtMost, IsAppended};

use crate::output::Output;
use ca_questions::Counts;
use std::alloc::AllocError;

/// Appends the seven lines of a summary: the number of rules, and the number of rules with each property.
pub fn write_counts(output: &mut Output, counts: &Counts) -> Result<(), AllocError>
    ensures appended { IsAppended result output.old output.new (counts_lines (counts_of counts.now)) }
    ensures few { AppendsAtMost 500 result output.old output.new }
{
    write_first_counts(output, counts)?;
    write_count(output, "right", counts.right)?;
    write_count(output, "left", counts.left)?;
    write_count(output, "open", counts.open)?;
    write_count(output, "conserving", counts.conserving)
}

/// Appends the three lines with the number of rules, of surjective rules and of injective rules.
fn write_first_counts(output: &mut Output, counts: &Counts) -> Result<(), AllocError>
    ensures appended { IsAppended result output.old output.new (count_line (codes "rules") counts.now.rules
        ++ count_line (codes "surjective") counts.now.surjective ++ count_line (codes "injective") counts.now.injective) }
    ensures few { AppendsAtMost 210 result output.old output.new }
{
    write_count(output, "rules", counts.rules)?;
    write_count(output, "surjective", counts.surjective)?;
    write_count(output, "injective", counts.injective)
}

/// Appends a line of a name, a blank and a count, for example `surjective 30`.
fn write_count(output: &mut Output, name: &str, count: u16) -> Result<(), AllocError>
    ensures appended { IsAppended result output.old output.new (count_line name.now count) }
    ensures few { AppendsAtMost (50 + length name.now) result output.old output.new }
{
    output.push(name.as_bytes())?;
    output.push_line_with_number(" ", u128::from(count))
}
