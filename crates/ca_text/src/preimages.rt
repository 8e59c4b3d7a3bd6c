//! The line of a preimage of a configuration, or of a gap: the first part of the configuration that is an orphan.
ghost use Rattle.std.specs.Prelude.{◌+◌, length};
ghost use Rattle.word_image.specs.LocalRules.{IsWord};
ghost use Rattle.tail_preimage.specs.Answers.{placed_config, placed_of_lent};
ghost use Rattle.ca_questions.specs.Replies.{Reply};
ghost use Rattle.ca_questions.specs.Values.{preimage_of};
ghost use Rattle.ca_text.specs.Reports.{line};
ghost use Rattle.ca_text.specs.Lines.{gap_text, placed_text};
ghost use Rattle.ca_text.specs.Rooms.{AppendsAtMost, FitsRoom, IsAppended};
ghost use Rattle.ca_text.specs.Texts.{text_of};
ghost use Rattle.ca_questions.specs.Writable.{HasTailDigits, IsWritable};

use crate::output::Output;
use std::alloc::AllocError;
use tail_preimage::{LentPlaced, LentPre};

/// Appends the line of a preimage or of a gap.
pub fn write_preimage(output: &mut Output, answer: &LentPre) -> Result<(), AllocError>
    requires { IsWritable (preimage_of answer.now) }
    ensures appended { IsAppended result output.old output.new (text_of (preimage_of answer.now)) }
    ensures few { FitsRoom (Reply.Found (preimage_of answer.now)) → AppendsAtMost 34000 result output.old output.new }
{
    match answer {
        LentPre::From(placed) => write_placed(output, placed),
        LentPre::Gap {
            before,
            after,
            word,
        } => write_gap(output, *before, *after, word),
    }
}

/// Appends the line of a preimage: `preimage`, the place at which its middle begins, and the text of the
/// configuration.
fn write_placed(output: &mut Output, placed: &LentPlaced) -> Result<(), AllocError>
    requires { HasTailDigits (placed_config (placed_of_lent placed.now)).config }
    ensures appended { IsAppended result output.old output.new (line (placed_text (placed_config (placed_of_lent placed.now)))) }
    ensures few { AppendsAtMost (60 + length placed.now.left.now + length placed.now.middle.now + length placed.now.right.now) result output.old output.new }
{
    output.push(b"preimage ")?;
    output.push_offset(placed.at)?;
    output.push(b" ")?;
    output.push_parts(placed.left, placed.middle, placed.right)?;
    output.push(b"\n")
}

/// Appends the line of a gap: `no preimage`, the number of left periods and the number of right periods that the gap
/// spans, and its word, which is an orphan.
fn write_gap(output: &mut Output, before: u16, after: u16, word: &[u8]) -> Result<(), AllocError>
    requires { IsWord 16 word.now }
    ensures appended { IsAppended result output.old output.new (line (gap_text before after word.now)) }
    ensures few { AppendsAtMost (100 + length word.now) result output.old output.new }
{
    output.push_numbers("no preimage ", before, after)?;
    output.push_line_with_word(" ", word)
}
