//! Laws about replies to words, for all commands together. Each law is the contract of a function that does nothing.
ghost use Rattle.std.specs.Prelude.{◌⊎◌, ℕ, List, Option};
ghost use Rattle.ca_commands.specs.Asking.{NeedMemory};
ghost use Rattle.ca_questions.specs.Replies.{Reply};
ghost use Rattle.ca_questions.specs.Writable.{IsWritableReply};
ghost use Rattle.ca_text.specs.Rooms.{FitsRoom};
ghost use Rattle.ca_cli.specs.RightAnswers.{IsReplyTo};

use ca_questions::right_findings_are_writable;
use image_minimal::few_classes;

/// Law: each right reply to the words of a command line can be written. Its letters are below 16, so each letter is one
/// hexadecimal digit, and an automaton has a row for each class.
pub fn right_replies_are_writable()
    ensures { (words : List (List ℕ)) (input : Option (List ℕ)) (reply : Reply) → IsReplyTo words input reply → IsWritableReply reply }
{
    right_findings_are_writable();
}

/// Law: each right reply to the words of a command line has a text for which an output has room, or the words are `check` or ask a question
/// whose answer may need memory.
pub fn right_replies_fit()
    ensures { (words : List (List ℕ)) (input : Option (List ℕ)) (reply : Reply) → IsReplyTo words input reply
        → NeedMemory words ⊎ FitsRoom reply }
{
    few_classes();
}
