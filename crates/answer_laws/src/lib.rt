//! Laws that follow from the definition `IsAnswer` of ca_cli, which says which answers to the words of a command line are
//! right. No code needs them.
//!
//! - [`one_status`], [`usage_exactly`], [`rule_fault_exactly`], [`right_exactly`] and [`done_or_not_fit`] say for all
//!   commands which status and output are right.
//! - [`check_exactly`] says it for the command `check`.
//! - [`certified_is_accepted`] says that `check` accepts what `certify` writes.
//! - [`faults_are_seen`] says that a count of faults tells whether a read or a write failed.
//! - [`found_inverse_undoes`] says that the rule which `inverse` finds undoes the given rule.
//! - [`one_reply`] and [`one_output`] say that the words have at most one right reply. The words and the bytes that the
//!   source has left determine the reply as a value. So they also determine the status, and each byte of the text and of
//!   the JSON of the reply.
//!
//! A source *tells* its bytes if contracts can name the bytes that it has left (crate ca_io). This crate has no law that
//! there is a reply: [`ca_cli::run`] gives one unless a read, a write or a request for memory fails.
//!
//! A reply is a value (crate ca_questions): a *finding*, which answers the question of the words, a *cause* why the
//! question has no answer, the fault of an operand, the result of judging a certificate, or that the words are no
//! command. A command asks at most one question, about accepted rules. A question has at most one right finding. If it
//! has no right finding, it has at most one right cause. The reason is that each finding is one of these: the least
//! value that meets a condition, a number that the rule determines, a rule that its images determine, or the list of
//! all values that meet a condition, in their order. If neither of two values is greater than the other in a total
//! order, they are equal.
//!
//! The functions of this crate do nothing. The contract of each function states a law.
#![tactic(auto)]

mod statuses;

ghost use Rattle.std.specs.Prelude.{◌≡◌, ℕ, ◌-◌, ◌^◌, List, Option, Some};
ghost use Rattle.word_image.specs.LocalRules.{LocalRule, IsRule};
ghost use Rattle.tail_config.specs.InverseMaps.{WindowMap};
ghost use Rattle.config_laws.specs.Composed.{IsUndoneBy};
ghost use Rattle.ca_io.specs.Faults.{Rose};
ghost use Rattle.ca_cli.specs.declared.status.Status.{Status};
ghost use Rattle.ca_commands.specs.Commands.{Command, IsCommand};
ghost use Rattle.ca_questions.specs.Findings.{IsInverseFound};
ghost use Rattle.ca_questions.specs.Replies.{Reply};
ghost use Rattle.ca_cli.specs.Readings.{ReadsNothing};
ghost use Rattle.ca_cli.specs.RightAnswers.{IsAnswer, IsReplyTo};

pub use statuses::{
    certified_is_accepted, check_exactly, done_or_not_fit, one_status, right_exactly,
    rule_fault_exactly, usage_exactly,
};

/// Law: the same words and the same input have at most one right reply. If the words are no command, or a command that
/// reads nothing, this holds for any source. For other words it holds if the source tells its bytes.
pub fn one_reply()
    ensures unread { (words : List (List ℕ)) (input : Option (List ℕ)) (reply other : Reply)
        → ((c : Command) → IsCommand words c → ReadsNothing c)
        → IsReplyTo words input reply → IsReplyTo words input other → reply ≡ other }
    ensures told { (words : List (List ℕ)) (left : List ℕ) (reply other : Reply)
        → IsReplyTo words (Some left) reply → IsReplyTo words (Some left) other → reply ≡ other }
{}

/// Law: the same words and the same input have at most one right output for each status. If the words are no command,
/// or a command that reads nothing, this holds for any source. For other words it holds if the source tells its bytes.
pub fn one_output()
    ensures unread { (words : List (List ℕ)) (input : Option (List ℕ)) (s : Status) (out other : List ℕ)
        → ((c : Command) → IsCommand words c → ReadsNothing c)
        → IsAnswer words input s out → IsAnswer words input s other → out ≡ other }
    ensures told { (words : List (List ℕ)) (left : List ℕ) (s : Status) (out other : List ℕ)
        → IsAnswer words (Some left) s out → IsAnswer words (Some left) s other → out ≡ other }
{}

/// Law: a count of faults that rose isn't the same as before, unless it was at its greatest value. So if a count below
/// this value doesn't change while [`ca_cli::run`] runs, no call that it counts failed.
pub fn faults_are_seen()
    ensures { (before now : ℕ) → Rose before now → now ≡ before → before ≡ 2 ^ 64 - 1 }
{}

/// Law: if `inverse` finds a rule s, then s undoes the given rule r. By the law `undone_everywhere` of config_laws, r then
/// undoes s too, r is injective, and both conserve the same sums.
pub fn found_inverse_undoes()
    ensures { (r s : LocalRule) (n c : ℕ) (g : WindowMap) → IsRule r → IsInverseFound r n c g (Some s) → IsUndoneBy r s }
{}
