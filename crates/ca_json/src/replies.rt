//! The function `reply_json`, which returns the JSON of a reply as a text.
ghost use Rattle.std.specs.Prelude.{◌≡◌, IfOk, string_bytes};
ghost use Rattle.serde_json.specs.View.{view};
ghost use Rattle.ca_questions.specs.Values.{reply_of};
ghost use Rattle.ca_questions.specs.Writable.{IsWritableReply};
ghost use Rattle.ca_json.specs.Replies.{json_of, json_text, verdicts_json};

use crate::causes::{cause_value, operand_value};
use crate::findings::finding_value;
use crate::refusals::refusal_value;
use ca_questions::Reply;
use cert_conditions::Verdicts;
use cert_writing::{rule_value, weights_value};
use serde_json::{Value, json};
use std::alloc::{AllocError, Global};

/// Returns the JSON of a reply whose words have letters below 16: one object with ascending keys and without blanks.
/// The only error is lack of memory.
pub fn reply_json(alloc: Global, reply: &Reply) -> Result<String, AllocError>
    requires { IsWritableReply (reply_of reply.now) }
    ensures { IfOk result (λ text. string_bytes text ≡ json_text (reply_of reply.now)) }
{
    reply_value(alloc, reply)?.to_string(alloc)
}

/// Returns the object of a reply, with its status.
fn reply_value(alloc: Global, reply: &Reply) -> Result<Value, AllocError>
    requires { IsWritableReply (reply_of reply.now) }
    ensures { IfOk result (λ v. view v ≡ json_of (reply_of reply.now)) }
{
    match reply {
        Reply::Found(found) => {
            let finding = finding_value(alloc, found)?;
            json!(in alloc; {"finding": finding, "status": "done"})
        }
        Reply::NotFit(cause) => {
            let cause = cause_value(alloc, cause)?;
            json!(in alloc; {"cause": cause, "status": "notfit"})
        }
        Reply::RuleFault(operand, fault) => operand_value(alloc, *operand, *fault),
        Reply::Accepted(verdicts) => {
            let verdicts = verdicts_value(alloc, verdicts)?;
            json!(in alloc; {"status": "done", "verdicts": verdicts})
        }
        Reply::Refused(refusal) => refusal_value(alloc, *refusal),
        Reply::TooLong => json!(in alloc; {"status": "toolong"}),
        Reply::Usage => json!(in alloc; {"status": "usage"}),
    }
}

/// Returns the object with the verdicts of an accepted certificate.
fn verdicts_value(alloc: Global, verdicts: &Verdicts) -> Result<Value, AllocError>
    ensures { IfOk result (λ v. view v ≡ verdicts_json verdicts.now) }
{
    let rule = rule_value(alloc, &verdicts.rule)?;
    let weights = weights_value(alloc, &verdicts.weights)?;
    json!(in alloc; {
        "conserving": verdicts.conserving,
        "injective": verdicts.injective,
        "left": verdicts.left,
        "open": verdicts.is_open(),
        "right": verdicts.right,
        "rule": rule,
        "surjective": verdicts.surjective,
        "weights": weights,
    })
}
