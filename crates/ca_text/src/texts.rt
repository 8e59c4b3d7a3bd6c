//! The function `write_finding`, which writes the text of a finding: the answer to a question about rules.
ghost use Rattle.std.specs.Prelude.{◌≡◌, ◌++◌, ◌+◌, ◌≤◌, length, IsOk, OnOk};
ghost use Rattle.ca_questions.specs.Replies.{Reply};
ghost use Rattle.ca_questions.specs.Values.{finding_of};
ghost use Rattle.ca_text.specs.Rooms.{AppendsAtMost, FitsRoom, IsShortFinding, IsSmallReply, most_text};
ghost use Rattle.ca_text.specs.Texts.{text_of};
ghost use Rattle.ca_questions.specs.Writable.{IsWritable};

use crate::counts::write_counts;
use crate::inverses::write_inverse;
use crate::languages::{write_automaton, write_erased, write_same};
use crate::output::Output;
use crate::preimages::write_preimage;
use crate::report::{write_number, write_report, write_surjective};
use ca_questions::Finding;
use cert_writing::to_bytes;
use std::alloc::{AllocError, Global};

/// Appends the text of a finding, which is the answer to a question. The definition `text_of` says what this text is.
/// The only error is lack of memory. It doesn't come if the output has room for the text of a finding that isn't a
/// certificate.
pub fn write_finding(alloc: Global, output: &mut Output, found: &Finding) -> Result<(), AllocError>
    requires { IsWritable (finding_of found.now) }
    ensures appended { OnOk result (output.new ≡ output.old ++ text_of (finding_of found.now)) }
    ensures fits { IsShortFinding (finding_of found.now) → length output.old + length (text_of (finding_of found.now)) ≤ most_text → IsOk result }
    ensures few { FitsRoom (Reply.Found (finding_of found.now)) → AppendsAtMost most_text result output.old output.new }
    ensures small { IsSmallReply (Reply.Found (finding_of found.now)) → AppendsAtMost 500 result output.old output.new }
{
    match found {
        Finding::Report(report) => write_report(output, report),
        Finding::Written(cert) => output.push(&to_bytes(alloc, cert)?),
        Finding::Orphan(orphan) => write_surjective(output, orphan),
        Finding::Number(number) => write_number(output, *number),
        Finding::Rule(rule) => {
            output.push_rule(rule)?;
            output.push(b"\n")
        }
        Finding::Inverse(inverse) => write_inverse(output, inverse),
        Finding::Language(automaton) => write_automaton(output, automaton),
        Finding::Same(word) => write_same(output, word),
        Finding::Erased(pair) => write_erased(output, pair),
        Finding::Preimage(answer) => write_preimage(output, answer),
        Finding::Summary(counts) => write_counts(output, counts),
        Finding::Classes(counts, classes) => {
            write_counts(output, counts)?;
            output.push_line_with_number("classes ", *classes as u128)
        }
    }
}
