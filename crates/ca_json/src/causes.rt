//! The JSON of a cause why a question has no answer, and of the fault of an operand.
ghost use Rattle.std.specs.Prelude.{◌≡◌, IfOk};
ghost use Rattle.serde_json.specs.View.{view};
ghost use Rattle.ca_questions.specs.Values.{cause_of};
ghost use Rattle.ca_questions.specs.Writable.{IsWritableCause};
ghost use Rattle.rule_text.specs.FaultTexts as texts;
ghost use Rattle.ca_json.specs.Causes as causes;

use crate::values::{pair_value, tagged};
use ca_questions::Cause;
use rule_algebra::algebra_name;
use rule_classes::lift_name;
use rule_text::{TextFault, fault_name, fault_place};
use serde_json::{Value, json};
use std::alloc::{AllocError, Global};
use tail_config::tail_name;

/// Returns an object for a cause why a question has no answer. Its only key names the kind of the cause, for example
/// `{"twins":["0","1"]}`.
pub fn cause_value(alloc: Global, cause: &Cause) -> Result<Value, AllocError>
    requires { IsWritableCause (cause_of cause.now) }
    ensures { IfOk result (λ v. view v ≡ causes.cause_json (cause_of cause.now)) }
{
    match cause {
        Cause::Twins(pair) => {
            let twins = pair_value(alloc, pair.x.as_slice(), pair.y.as_slice())?;
            tagged(alloc, "twins", twins)
        }
        Cause::Wide(n) => tagged(alloc, "wide", Value::from(*n)),
        Cause::Colours => tagged(alloc, "colours", Value::Null),
        Cause::Lift(fault) => json!(in alloc; {"lift": lift_name(*fault)}),
        Cause::Algebra(fault) => json!(in alloc; {"algebra": algebra_name(*fault)}),
        Cause::Tail(fault) => json!(in alloc; {"tail": tail_name(*fault)}),
        Cause::Weights => tagged(alloc, "weights", Value::Null),
        Cause::States => tagged(alloc, "states", Value::Null),
    }
}

/// Returns the object for the fault of an operand. It has the number of the operand, the name of the fault, the place
/// of the fault if it has one, and the status `rulefault`.
pub fn operand_value(alloc: Global, operand: u8, fault: TextFault) -> Result<Value, AllocError>
    ensures { IfOk result (λ v. view v ≡ causes.operand_json operand (texts.fault_name fault) (texts.fault_place fault)) }
{
    let name = fault_name(fault);
    match fault_place(fault) {
        None => json!(in alloc; {"fault": name, "operand": operand, "status": "rulefault"}),
        Some(place) => json!(in alloc; {
            "fault": name, "operand": operand, "place": place, "status": "rulefault"
        }),
    }
}
