//! The lines of a report, for example `surjective no orphan 01010` and `open no`.
ghost use Rattle.std.specs.Prelude.{◌+◌, ◌*◌, ◌++◌, length, codes, if◌then◌else◌};
ghost use Rattle.std.specs.List.{flat_map};
ghost use Rattle.tail_config.specs.TailTexts as tail;
ghost use Rattle.rule_text.specs.PrintedRules.{number_found, printed_rule, offset_text};
ghost use Rattle.rule_verdicts.specs.Reports.{evidence_of, injective_of, side_in, sum_of};
ghost use Rattle.ca_text.specs.Reports.{line, number_line, surjective_line, injective_line, side_line, conserving_line, report_lines};
ghost use Rattle.ca_text.specs.Rooms.{AppendsAtMost, IsAppended};
ghost use Rattle.ca_questions.specs.Findings.{Finding};
ghost use Rattle.ca_questions.specs.Writable.{HasDigits, HasTwinDigits, HasRingDigits, IsWritable};

use crate::output::Output;
use closing_test::LentClosing;
use flux_conserve::Keeping;
use rule_text::number;
use rule_verdicts::{Injectivity, Report};
use short_words::LentWord;
use std::alloc::AllocError;
use tail_config::LentTail;
use word_image::Rule;

/// Appends the eight lines of a report: the rule, its number, and its six verdicts with their evidence.
pub fn write_report(output: &mut Output, report: &Report) -> Result<(), AllocError>
    requires { IsWritable (Finding.Report (evidence_of report.now)) }
    ensures appended { IsAppended result output.old output.new (report_lines (evidence_of report.now)) }
    ensures few { AppendsAtMost 149000 result output.old output.new }
{
    write_first_lines(output, report)?;
    write_side(output, "right", &report.right)?;
    write_side(output, "left", &report.left)?;
    write_open(output, report.is_open())?;
    write_conserving(output, &report.rule, &report.conserving)
}

/// Appends the four lines with the rule, its number, and whether it is surjective and injective.
fn write_first_lines(output: &mut Output, report: &Report) -> Result<(), AllocError>
    requires orphan { HasDigits report.now.orphan }
    requires twins { HasTwinDigits (injective_of report.now.injective) }
    ensures appended { IsAppended result output.old output.new (line (codes "rule " ++ printed_rule report.now.rule)
        ++ number_line (number_found report.now.rule) ++ surjective_line report.now.orphan ++ injective_line (injective_of report.now.injective)) }
    ensures few { AppendsAtMost 134600 result output.old output.new }
{
    write_rule(output, &report.rule)?;
    write_number(output, number(&report.rule))?;
    write_surjective(output, &report.orphan)?;
    write_injective(output, &report.injective)
}

/// Appends the line with the text of the rule, for example `rule 2:3:-1:t01110110`.
pub fn write_rule(output: &mut Output, rule: &Rule) -> Result<(), AllocError>
    ensures appended { IsAppended result output.old output.new (line (codes "rule " ++ printed_rule rule.now)) }
    ensures few { AppendsAtMost 410 result output.old output.new }
{
    output.push(b"rule ")?;
    output.push_rule(rule)?;
    output.push(b"\n")
}

/// Appends the line with the Wolfram number of a rule, or `number none` if it has none.
pub fn write_number(output: &mut Output, number: Option<u128>) -> Result<(), AllocError>
    ensures appended { IsAppended result output.old output.new (number_line number) }
    ensures few { AppendsAtMost 50 result output.old output.new }
{
    match number {
        Some(number) => output.push_line_with_number("number ", number),
        None => output.push_line("number none"),
    }
}

/// Appends the line that says whether the rule is surjective, with the orphan if it isn't.
pub fn write_surjective(output: &mut Output, orphan: &Option<LentWord>) -> Result<(), AllocError>
    requires { HasDigits orphan.now }
    ensures appended { IsAppended result output.old output.new (surjective_line orphan.now) }
    ensures few { AppendsAtMost 131100 result output.old output.new }
{
    match orphan {
        None => output.push_line("surjective yes"),
        Some(word) => output.push_line_with_word("surjective no orphan ", word.as_slice()),
    }
}

/// Appends the line that says whether the rule is injective, with a window if it is, and with twins if it isn't.
fn write_injective(output: &mut Output, found: &Injectivity) -> Result<(), AllocError>
    requires { HasTwinDigits (injective_of found.now) }
    ensures appended { IsAppended result output.old output.new (injective_line (injective_of found.now)) }
    ensures few { AppendsAtMost 2200 result output.old output.new }
{
    match found {
        Injectivity::Window { n, c } => {
            output.push_line_with_numbers("injective yes window ", *n, *c)
        }
        Injectivity::Twins(pair) => output.push_line_with_words(
            "injective no twins ",
            pair.x.as_slice(),
            pair.y.as_slice(),
        ),
    }
}

/// Appends the line that says whether the rule closes on a side, with a look-ahead if it does, and with a split if it
/// doesn't. `name` is the word for the side.
fn write_side(output: &mut Output, name: &str, found: &LentClosing) -> Result<(), AllocError>
    ensures appended { IsAppended result output.old output.new (side_line name.now (side_in found.now)) }
    ensures few { AppendsAtMost (6200 + length name.now) result output.old output.new }
{
    match found {
        LentClosing::Ahead(n) => {
            output.push(name.as_bytes())?;
            output.push_line_with_number(" yes ahead ", u128::from(*n))
        }
        LentClosing::Split(x, y) => write_split(output, name, x, y),
    }
}

/// Appends the line of a rule that doesn't close on a side, with its split. `name` is the word for the side.
fn write_split(
    output: &mut Output,
    name: &str,
    x: &LentTail,
    y: &LentTail,
) -> Result<(), AllocError>
    ensures appended { IsAppended result output.old output.new (line (name.now ++ codes " no split " ++ tail.printed x.now.config ++ codes " " ++ tail.printed y.now.config)) }
    ensures few { AppendsAtMost (6200 + length name.now) result output.old output.new }
{
    output.push(name.as_bytes())?;
    output.push(b" no split ")?;
    output.push_tail(x)?;
    output.push(b" ")?;
    output.push_tail(y)?;
    output.push(b"\n")
}

/// Appends the line that says whether the rule is open. `both` says whether it closes on both sides.
fn write_open(output: &mut Output, both: bool) -> Result<(), AllocError>
    ensures appended { IsAppended result output.old output.new (line (if both then codes "open yes" else codes "open no")) }
    ensures few { AppendsAtMost 20 result output.old output.new }
{
    output.push_line(if both { "open yes" } else { "open no" })
}

/// Appends the line that says whether this rule is conserving, with a flux if it is, and with a ring if it isn't.
fn write_conserving(output: &mut Output, rule: &Rule, found: &Keeping) -> Result<(), AllocError>
    requires { HasRingDigits (sum_of rule.now found.now) }
    ensures appended { IsAppended result output.old output.new (conserving_line (sum_of rule.now found.now)) }
    ensures few { AppendsAtMost 700 result output.old output.new }
{
    match found {
        Keeping::Flux(flows) => write_flux(output, &flows[..usize::from(rule.nodes())]),
        Keeping::Ring(ring) => output.push_line_with_word("conserving no ring ", ring.letters()),
    }
}

/// Appends the line of a conserving rule, with the numbers of its flux.
fn write_flux(output: &mut Output, flows: &[i32]) -> Result<(), AllocError>
    ensures appended { IsAppended result output.old output.new (line (codes "conserving yes flux" ++ flat_map (λ z. codes " " ++ offset_text z) flows.now)) }
    ensures few { AppendsAtMost (20 + 41 * length flows.now) result output.old output.new }
{
    output.push(b"conserving yes flux")?;
    write_flows(output, flows)?;
    output.push(b"\n")
}

/// Appends the numbers of a flux, with a blank before each of them.
fn write_flows(output: &mut Output, flows: &[i32]) -> Result<(), AllocError>
    ensures appended { IsAppended result output.old output.new (flat_map (λ z. codes " " ++ offset_text z) flows.now) }
    ensures few { AppendsAtMost (41 * length flows.now) result output.old output.new }
{
    for flow in flows {
        write_flow(output, flow)?;
    }
    Ok(())
}

/// Appends a blank and a number of a flux.
fn write_flow(output: &mut Output, flow: &i32) -> Result<(), AllocError>
    ensures appended { IsAppended result output.old output.new (codes " " ++ offset_text flow.now) }
    ensures few { AppendsAtMost 41 result output.old output.new }
{
    output.push(b" ")?;
    output.push_offset(i64::from(*flow))
}
