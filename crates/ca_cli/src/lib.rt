//! The program without its `main`: it answers the words of a command line.
//!
//! A *command* is a name, texts of rules and other operands. A *reply* is what the program has to say about the
//! words, as a value. An *answer* is a [`Status`], which says how the program ended, and an output, which is the list
//! of bytes for the sink. For example, the words `orphan` and `90` have the reply that there is no orphan. Their
//! answer is the status `Done` and the output `surjective yes` with a line end.
//!
//! [`run`] takes five steps from the words to the bytes:
//!
//! 1. `question` of ca_commands reads the words into a question. It fails if the words are no command, if an operand
//!   isn't the text of a rule, or if the parts of a configuration don't fit.
//! 2. `answer` of ca_answering finds the answer to the question, or the cause why it has none. The command `check` asks
//!   no question: it reads the whole input from the source, or one byte more than the judge accepts, and passes it to
//!   the judge. No other command reads the source.
//! 3. [`reply`] returns the result as a value, for callers who want another form than the text.
//! 4. [`answer_to`] writes the text of the reply into the memory of a [`CommandRoom`] as a whole.
//! 5. The text goes to the sink. If a write fails, a sink that tells its bytes (crate ca_io) has taken a part of the
//!   text, but not all of it.
//!
//! [`run`] makes a room for one call. [`run_in`] does the same over a room that can serve many calls. Then only
//! `certify`, `brief`, `classes` and `check` can end for lack of memory.
//!
//! The definition `IsAnswer` of specs/RightAnswers.antt says which status and which output are right for the words
//! and for the bytes that the source has left. The contract of [`run`] is about this definition. The laws of the crate
//! answer_laws follow from it, and say for each command which status and output are right. Two laws are here, since the
//! code needs them: [`right_replies_are_writable`] says that each right reply has a text, and [`right_replies_fit`] says
//! for which words an output has room for it.
//!
//! For example:
//!
//! | Words | Status | Code | Output |
//! |---|---|---|---|
//! | `decide 110` | Done | 0 | the eight lines of the report |
//! | `orphan 110` | Done | 0 | `surjective no orphan 01010` |
//! | `orphan 90` | Done | 0 | `surjective yes` |
//! | `number 2:3:-1:t01110110` | Done | 0 | `number 110` |
//! | `certify 90` | Done | 0 | the certificate of the rule |
//! | `compose 90 90` | Done | 0 | `2:5:-2:t01010101010101011010101010101010` |
//! | `compose 110 3:2:0:w0` | NotFit | 4 | `notfit states` |
//! | `inverse 170` | Done | 0 | `window 1 2`, `offset -1`, `map 01`, `rule 2:2:-1:t0011` |
//! | `inverse 90` | NotFit | 4 | `notfit twins 0 1` |
//! | `same 110 90` | Done | 0 | `same no 01010` |
//! | `preimage 110 0\|101\|0` | Done | 0 | `no preimage 1 1 01010` |
//! | `least 193` | Done | 0 | `2:3:0:t01110110` |
//! | `erase 90` | Done | 0 | `erase none` |
//! | `survey 2 3 0 256` | Done | 0 | the seven lines of the summary |
//! | `survey 7 2 0 1` | RuleFault | 3 | `rule fault 1 kind` |
//! | `orphan 256` | RuleFault | 3 | `rule fault 1 number` |
//! | `orphan 1x` | RuleFault | 3 | `rule fault 1 form 1` |
//! | `110` | Usage | 2 | `usage error` |
//! | `check`, of no input | Refused | 1 | `refused format notjson` |
//! | `check`, of 4,194,305 bytes | TooLong | 5 | `too long` |
//!
//! A report has eight lines. A summary of rules has seven lines, and an eighth line if classes are counted. The
//! verdicts of a certificate have seven lines, and an eighth line if a letter doesn't weigh its own value. An inverse
//! has four lines. The automaton of a language has two lines, and one more for each class. A certificate is a text
//! without a line end. Every other output has one line.
//!
//! A call takes the time and the memory of the functions that decide its question. For n bytes of words, input and
//! output it takes **O(n)** more time and memory.
#![tactic(auto)]

mod answers;
mod checks;
mod replies;
mod room;
mod status;
mod theorems;
mod top_call;

pub use answers::answer_to;
pub use replies::reply;
pub use room::CommandRoom;
pub use status::Status;
pub use theorems::{right_replies_are_writable, right_replies_fit};
pub use top_call::{run, run_in};
