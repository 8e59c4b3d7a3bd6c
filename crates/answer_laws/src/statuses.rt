//! Laws about words, statuses and outputs, for all commands together. Each law is the contract of a function that does
//! nothing. A source tells its bytes if contracts can name the bytes that it has left.
ghost use Rattle.std.specs.Prelude.{◌≡◌, ◌↔◌, ◌+◌, ◌≤◌, ◌⊎◌, ℕ, List, Option, Some, length};
ghost use Rattle.word_image.specs.LocalRules.{LocalRule};
ghost use Rattle.cert_conditions.specs.Accepted.{AreTrue, IsAccepted};
ghost use Rattle.cert_conditions.specs.Refusals.{IsRefusal};
ghost use Rattle.cert_conditions.specs.declared.refusal.Refusal.{Refusal};
ghost use Rattle.cert_conditions.specs.declared.verdicts.Verdicts.{Verdicts};
ghost use Rattle.cert_values.specs.declared.cert_version.CertVersion.{CertVersion};
ghost use Rattle.rule_text.specs.declared.text_fault.TextFault.{TextFault};
ghost use Rattle.ca_commands.specs.Commands.{Command, IsCommand, check_command};
ghost use Rattle.ca_questions.specs.Questions.{Question};
ghost use Rattle.ca_questions.specs.Findings.{Cause, IsCauseFor, weights_by};
ghost use Rattle.ca_commands.specs.Asked.{IsAsked, IsOperandFault};
ghost use Rattle.ca_cli.specs.Inputs.{most_input};
ghost use Rattle.ca_cli.specs.Readings.{ReadsNothing};
ghost use Rattle.ca_text.specs.StatusLines.{accepted_lines, operand_fault_line, refused_line, too_long_line, usage_line};
ghost use Rattle.ca_cli.specs.RightAnswers.{IsAnswer, IsReplyOf};

use ca_cli::Status;
use ca_questions::finding_or_cause;

/// Law: the same words and the same input have at most one right status. If the words are no command, or a command that
/// reads nothing, this holds for any source. For other words it holds if the source tells its bytes.
pub fn one_status()
    ensures unread { (words : List (List ℕ)) (input : Option (List ℕ)) (s t : Status) (out other : List ℕ)
        → ((c : Command) → IsCommand words c → ReadsNothing c)
        → IsAnswer words input s out → IsAnswer words input t other → s ≡ t }
    ensures told { (words : List (List ℕ)) (left : List ℕ) (s t : Status) (out other : List ℕ)
        → IsAnswer words (Some left) s out → IsAnswer words (Some left) t other → s ≡ t }
{
    finding_or_cause();
}

/// Law: the status Usage is right if and only if the words are no command. Its output is the line `usage error`.
pub fn usage_exactly()
    ensures { (words : List (List ℕ)) (input : Option (List ℕ)) (out : List ℕ)
        → IsAnswer words input Status.Usage out
        ↔ (((c : Command) → ¬ IsCommand words c) × (out ≡ usage_line)) }
{}

/// Law: the status RuleFault is right if and only if the words are a command, and one of its operands has a fault. The
/// output is the line with the number of the first such operand and its first fault.
pub fn rule_fault_exactly()
    ensures { (words : List (List ℕ)) (input : Option (List ℕ)) (out : List ℕ)
        → IsAnswer words input Status.RuleFault out
        ↔ ((c : Command) × (operand : ℕ) × (f : TextFault) × IsCommand words c
        × IsOperandFault c operand f × (out ≡ operand_fault_line operand f)) }
{}

/// Law: if the words are a command, an answer is right if and only if it is a right answer to this command. Its output
/// is the text of the answer to the question, of the cause why there is none, of the fault of an operand, or of the
/// result of judging the input.
pub fn right_exactly()
    ensures { (words : List (List ℕ)) (input : Option (List ℕ)) (c : Command) (s : Status) (out : List ℕ)
        → IsCommand words c → IsAnswer words input s out ↔ IsReplyOf input c s out }
{}

/// Law: suppose that a command reads nothing and that no operand has a fault. If its question has no answer, only the
/// status NotFit is right. If its question has an answer, only the status Done is right.
pub fn done_or_not_fit()
    ensures done { (words : List (List ℕ)) (input : Option (List ℕ)) (c : Command) (s : Status) (out : List ℕ)
        → IsCommand words c → ReadsNothing c → ((operand : ℕ) (f : TextFault) → ¬ IsOperandFault c operand f)
        → ((q : Question) (cause : Cause) → IsAsked c q → ¬ IsCauseFor q cause)
        → IsAnswer words input s out → s ≡ Status.Done }
    ensures not_fit { (words : List (List ℕ)) (input : Option (List ℕ)) (c : Command) (q : Question) (cause : Cause) (s : Status) (out : List ℕ)
        → IsCommand words c → IsAsked c q → IsCauseFor q cause → IsAnswer words input s out → s ≡ Status.NotFit }
{
    finding_or_cause();
}

/// Law: if the source tells its bytes, `check` has exactly one right answer. It is Done with the verdicts if the judge
/// accepts the input. It is Refused with the reason if the judge refuses the input. It is TooLong if there are more
/// bytes than the judge accepts. For any source, no other status is right.
pub fn check_exactly()
    ensures done { (words : List (List ℕ)) (left : List ℕ) (v : Verdicts) (s : Status) (out : List ℕ)
        → IsCommand words check_command → length left ≤ most_input → IsAccepted left v
        → IsAnswer words (Some left) s out ↔ ((s ≡ Status.Done) × (out ≡ accepted_lines v)) }
    ensures refused { (words : List (List ℕ)) (left : List ℕ) (f : Refusal) (s : Status) (out : List ℕ)
        → IsCommand words check_command → length left ≤ most_input → IsRefusal left f
        → IsAnswer words (Some left) s out ↔ ((s ≡ Status.Refused) × (out ≡ refused_line f)) }
    ensures too_long { (words : List (List ℕ)) (left : List ℕ) (s : Status) (out : List ℕ)
        → IsCommand words check_command → most_input + 1 ≤ length left
        → IsAnswer words (Some left) s out ↔ ((s ≡ Status.TooLong) × (out ≡ too_long_line)) }
    ensures any { (words : List (List ℕ)) (input : Option (List ℕ)) (s : Status) (out : List ℕ)
        → IsCommand words check_command → IsAnswer words input s out
        → (s ≡ Status.Done) ⊎ ((s ≡ Status.Refused) ⊎ (s ≡ Status.TooLong)) }
{}

/// Law: `check` accepts the certificate that the program writes for a rule, with or without weights. If the input has
/// exactly the bytes of this certificate, only the status Done is right, and the output has the true verdicts on this
/// rule with these weights.
pub fn certified_is_accepted()
    ensures { (input : Option (List ℕ)) (c : Command) (version : CertVersion) (r : LocalRule) (weights : Option (List ℕ)) (out : List ℕ)
        → IsAsked c (Question.Certify version r weights) → IsReplyOf input c Status.Done out
        → (v : Verdicts) × (v.rule ≡ r) × (v.weights ≡ weights_by weights r) × AreTrue v
        × ((s : Status) (lines : List ℕ) → IsReplyOf (Some out) check_command s lines
        ↔ ((s ≡ Status.Done) × (lines ≡ accepted_lines v))) }
{}
