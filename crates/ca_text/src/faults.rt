//! The lines for faults of operands, and for causes, which say why a question has no answer.
ghost use Rattle.std.specs.Prelude.{◌+◌, ◌++◌, codes, length};
ghost use Rattle.rule_text.specs.FaultTexts.{fault_text};
ghost use Rattle.ca_questions.specs.Replies.{Reply};
ghost use Rattle.ca_questions.specs.Values.{cause_of};
ghost use Rattle.ca_text.specs.Rooms.{AppendsAtMost, IsAppended, IsSmallReply};
ghost use Rattle.ca_text.specs.StatusLines.{operand_fault_line, not_fit_line};
ghost use Rattle.ca_text.specs.Texts.{cause_text};
ghost use Rattle.ca_questions.specs.Writable.{IsWritableCause};

use crate::output::Output;
use ca_questions::Cause;
use rule_algebra::algebra_name;
use rule_classes::lift_name;
use rule_text::{TextFault, fault_name, fault_place};
use std::alloc::AllocError;
use tail_config::tail_name;

/// Appends the line for a cause why a question has no answer, for example `notfit twins 0 1`.
pub fn write_cause(output: &mut Output, cause: &Cause) -> Result<(), AllocError>
    requires { IsWritableCause (cause_of cause.now) }
    ensures appended { IsAppended result output.old output.new (not_fit_line (cause_text (cause_of cause.now))) }
    ensures few { AppendsAtMost 2200 result output.old output.new }
    ensures small { IsSmallReply (Reply.NotFit (cause_of cause.now)) → AppendsAtMost 100 result output.old output.new }
{
    match cause {
        Cause::Twins(pair) => output.push_line_with_words(
            "notfit twins ",
            pair.x.as_slice(),
            pair.y.as_slice(),
        ),
        Cause::Wide(n) => output.push_line_with_number("notfit wide ", u128::from(*n)),
        Cause::Colours => output.push_line("notfit colours"),
        Cause::Lift(fault) => write_name(output, "notfit ", lift_name(*fault)),
        Cause::Algebra(fault) => write_name(output, "notfit ", algebra_name(*fault)),
        Cause::Tail(fault) => write_name(output, "notfit tail ", tail_name(*fault)),
        Cause::Weights => output.push_line("notfit weights"),
        Cause::States => output.push_line("notfit states"),
    }
}

/// Appends a line of a text and the name of a fault.
fn write_name(output: &mut Output, text: &str, name: &str) -> Result<(), AllocError>
    ensures appended { IsAppended result output.old output.new (text.now ++ (name.now ++ codes "\n")) }
    ensures few { AppendsAtMost (length text.now + length name.now + 1) result output.old output.new }
{
    output.push(text.as_bytes())?;
    output.push_line(name)
}

/// Appends the line for the fault of the operand with this number, for example `rule fault 1 form 3`.
pub fn write_operand_fault(
    output: &mut Output,
    operand: u8,
    fault: TextFault,
) -> Result<(), AllocError>
    ensures appended { IsAppended result output.old output.new (operand_fault_line operand fault) }
    ensures few { AppendsAtMost 200 result output.old output.new }
{
    output.push(b"rule fault ")?;
    output.push_number_then(u128::from(operand), b" ")?;
    write_fault(output, fault)?;
    output.push(b"\n")
}

/// Appends the name of a fault, and a blank and its place if it has one.
fn write_fault(output: &mut Output, fault: TextFault) -> Result<(), AllocError>
    ensures appended { IsAppended result output.old output.new (fault_text fault) }
    ensures few { AppendsAtMost 100 result output.old output.new }
{
    output.push(fault_name(fault).as_bytes())?;
    let Some(place) = fault_place(fault) else {
        return Ok(());
    };
    output.push(b" ")?;
    output.push_number(place as u128)
}
