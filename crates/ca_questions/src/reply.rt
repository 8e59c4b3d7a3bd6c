//! The type `Reply`: replies to the words of a command line, as values and not as texts.
use crate::found::{Cause, Finding};
use cert_conditions::{Refusal, Verdicts};
use rule_text::TextFault;

/// The reply to the words of a command line.
#[derive(Drop)]
pub enum Reply<'r> {
    /// The words ask a question, and this is its right answer.
    Found(Finding<'r>),
    /// The words ask a question that has no answer, because of this cause.
    NotFit(Cause),
    /// The operand with this number, starting at 1, isn't the text of a rule. If the words ask about many rules, a
    /// fault of their shape counts as a fault of operand 1.
    RuleFault(u8, TextFault),
    /// The judge accepts the certificate in the input, with these verdicts.
    Accepted(Verdicts),
    /// The judge refuses the input, for this reason.
    Refused(Refusal),
    /// The input is longer than the judge accepts.
    TooLong,
    /// The words are no command.
    Usage,
}
