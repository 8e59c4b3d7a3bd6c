//! The type `WordFault`: why words are given up before a question is looked at.
use rule_text::TextFault;
use tail_config::TailFault;

/// Why no question is made of words.
#[derive(Clone, Copy, Debug, PartialEq, Eq)]
pub enum WordFault {
    /// The words are no command.
    Usage,
    /// The operand with this number, starting at 1, is refused because of this fault.
    RuleFault(u8, TextFault),
    /// The three parts of an operand don't form a configuration of the rule, because of this fault.
    Tail(TailFault),
}
