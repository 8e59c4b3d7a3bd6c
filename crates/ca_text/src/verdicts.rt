//! The lines about a certificate: its verdicts if it is accepted, or the reason why it is refused.
ghost use Rattle.std.specs.Prelude.{◌≡◌, ◌≢◌, ◌+◌, ◌*◌, ◌++◌, length, codes, alloc_error, if◌then◌else◌, OnOk};
ghost use Rattle.std.specs.Option.{option_map};
ghost use Rattle.std.specs.List.{flat_map, join_by};
ghost use Rattle.std.specs.Fmt.{decimal};
ghost use Rattle.rule_text.specs.PrintedRules.{printed_rule};
ghost use Rattle.ca_text.specs.Reports.{line};
ghost use Rattle.ca_text.specs.Rooms.{AppendsAtMost};
ghost use Rattle.ca_text.specs.StatusLines.{accepted_lines, weights_lines, verdict_line, refused_line, refusal_text, word_part, words_length, number_parts};
ghost use Rattle.cert_conditions.specs.RefusalParts.{said_in};

use crate::output::Output;
use cert_conditions::{Refusal, RefusalNumbers, RefusalParts, Verdicts};
use std::alloc::AllocError;
use word_image::{Rule, Weights};

/// Appends the seven lines of an accepted certificate, and an eighth line with the weights if some letter doesn't
/// weigh its own value.
pub fn write_accepted(output: &mut Output, verdicts: &Verdicts) -> Result<(), AllocError>
    ensures appended { OnOk result (output.new ≡ output.old ++ accepted_lines verdicts.now) }
    ensures few { AppendsAtMost 1200 result output.old output.new }
{
    write_rule(output, &verdicts.rule)?;
    write_verdict(output, "surjective", verdicts.surjective)?;
    write_verdict(output, "injective", verdicts.injective)?;
    write_verdict(output, "right", verdicts.right)?;
    write_verdict(output, "left", verdicts.left)?;
    write_verdict(output, "open", verdicts.is_open())?;
    write_verdict(output, "conserving", verdicts.conserving)?;
    write_weights(output, &verdicts.weights)
}

/// Appends the line with the rule of an accepted certificate, for example `accepted 2:2:0:t0101`.
fn write_rule(output: &mut Output, rule: &Rule) -> Result<(), AllocError>
    ensures appended { OnOk result (output.new ≡ output.old ++ line (codes "accepted " ++ printed_rule rule.now)) }
    ensures few { AppendsAtMost 410 result output.old output.new }
{
    output.push(b"accepted ")?;
    output.push_rule(rule)?;
    output.push(b"\n")
}

/// Appends the line of a verdict, for example `surjective yes`.
fn write_verdict(output: &mut Output, name: &str, yes: bool) -> Result<(), AllocError>
    ensures appended { OnOk result (output.new ≡ output.old ++ verdict_line name.now yes) }
    ensures few { AppendsAtMost (5 + length name.now) result output.old output.new }
{
    output.push(name.as_bytes())?;
    output.push_line(verdict_name(yes))
}

/// Appends the line with the weight of each letter, if some letter doesn't weigh its own value.
fn write_weights(output: &mut Output, weights: &Weights) -> Result<(), AllocError>
    ensures appended { OnOk result (output.new ≡ output.old ++ weights_lines weights.now) }
    ensures few { AppendsAtMost 660 result output.old output.new }
{
    if weights.is_own() {
        return Ok(());
    }
    output.push(b"weights ")?;
    write_numbers(output, weights.as_slice())?;
    output.push(b"\n")
}

/// Appends the decimal digits of these numbers, with a comma between two of them.
fn write_numbers(output: &mut Output, numbers: &[u8]) -> Result<(), AllocError>
    ensures appended { OnOk result (output.new ≡ output.old ++ join_by decimal (codes ",") numbers.now) }
    ensures few { AppendsAtMost (40 * length numbers.now) result output.old output.new }
{
    let Some((first, rest)) = numbers.split_first() else {
        return Ok(());
    };
    output.push_number(u128::from(*first))?;
    write_others(output, rest)
}

/// Appends the decimal digits of these numbers, with a comma before each of them.
fn write_others(output: &mut Output, numbers: &[u8]) -> Result<(), AllocError>
    ensures appended { OnOk result (output.new ≡ output.old ++ flat_map (λ n. codes "," ++ decimal n) numbers.now) }
    ensures few { AppendsAtMost (40 * length numbers.now) result output.old output.new }
{
    for number in numbers {
        write_other(output, *number)?;
    }
    Ok(())
}

/// Appends a comma and the decimal digits of a number.
fn write_other(output: &mut Output, number: u8) -> Result<(), AllocError>
    ensures appended { OnOk result (output.new ≡ output.old ++ (codes "," ++ decimal number)) }
    ensures few { AppendsAtMost 40 result output.old output.new }
{
    output.push(b",")?;
    output.push_number(u128::from(number))
}

fn verdict_name(yes: bool) -> &'static str
    ensures { result.now ≡ (if yes then codes " yes" else codes " no") }
{
    if yes { " yes" } else { " no" }
}

/// Appends the line of a refused certificate. If the refusal is lack of memory, returns it as the error.
pub fn write_refused(output: &mut Output, refusal: Refusal) -> Result<(), AllocError>
    ensures appended { OnOk result (output.new ≡ output.old ++ refused_line refusal) }
    ensures few { refusal ≢ Refusal.Memory alloc_error → AppendsAtMost 220 result output.old output.new }
{
    let parts = RefusalParts::of(refusal)?;
    output.push(b"refused ")?;
    write_parts(output, &parts)?;
    output.push(b"\n")
}

/// Appends the words and numbers of a refusal, with a blank between two of them.
fn write_parts(output: &mut Output, parts: &RefusalParts) -> Result<(), AllocError>
    ensures appended { OnOk result (output.new ≡ output.old ++ refusal_text (said_in parts.now)) }
    ensures few { AppendsAtMost (words_length (said_in parts.now) + 120) result output.old output.new }
{
    output.push(parts.cause.as_bytes())?;
    write_word(output, parts.side)?;
    write_word(output, parts.because)?;
    write_word(output, parts.key)?;
    write_word(output, parts.fault)?;
    write_places(output, parts.numbers)
}

/// Appends a blank and a word, or nothing if there is no word.
fn write_word(output: &mut Output, word: Option<&'static str>) -> Result<(), AllocError>
    ensures appended { OnOk result (output.new ≡ output.old ++ word_part (option_map (λ w. w.now) word.entry)) }
    ensures few { AppendsAtMost (length (word_part (option_map (λ w. w.now) word.entry))) result output.old output.new }
{
    let Some(word) = word else {
        return Ok(());
    };
    output.push(b" ")?;
    output.push(word.as_bytes())
}

/// Appends the numbers of a refusal, with a blank before each of them.
fn write_places(output: &mut Output, numbers: RefusalNumbers) -> Result<(), AllocError>
    ensures appended { OnOk result (output.new ≡ output.old ++ number_parts numbers) }
    ensures few { AppendsAtMost 120 result output.old output.new }
{
    match numbers {
        RefusalNumbers::None => Ok(()),
        RefusalNumbers::One(a) => write_place(output, a),
        RefusalNumbers::Two(a, b) => {
            write_place(output, a)?;
            write_place(output, b)
        }
        RefusalNumbers::Three(a, b, c) => {
            write_place(output, a)?;
            write_place(output, b)?;
            write_place(output, c)
        }
    }
}

/// Appends a blank and a number.
fn write_place(output: &mut Output, number: u64) -> Result<(), AllocError>
    ensures appended { OnOk result (output.new ≡ output.old ++ (codes " " ++ decimal number)) }
    ensures few { AppendsAtMost 40 result output.old output.new }
{
    output.push(b" ")?;
    output.push_number(u128::from(number))
}
