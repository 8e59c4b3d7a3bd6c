//! Reads the head of a text: `K:M:O:t` before the letters of a table, or `K:M:O:w` before the digits of a number. K, M
//! and O are the number of states, the width and the offset.
ghost use Rattle.std.specs.Prelude.{IfOk, IfErr};
ghost use Rattle.rule_text.specs.RuleTexts.{IsTextFault};
ghost use Rattle.rule_text.specs.Heads.{IsForm, IsHead};

use crate::parts::{field, kind, offset};
use crate::text_fault::TextFault;

/// What follows the head of a text: the letters of a table, or the digits of a number.
#[derive(Clone, Copy)]
pub enum Kind {
    /// Hexadecimal digits, one for each window.
    Table,
    /// The decimal digits of the Wolfram number.
    Number,
}

/// The head of a text, and the place at which the head ends.
#[derive(Clone, Copy)]
pub struct Head {
    // The number of states, below 100.
    pub k: u8,
    // The width, below 100.
    pub m: u8,
    // The offset, from -99 to 99.
    pub o: i8,
    // What follows the head: the letters of a table, or the digits of a number.
    pub kind: Kind,
    // The place of the text at which the letters or the digits begin.
    pub place: usize,
}

/// Reads the head of a text. A text that doesn't begin with one or two digits and a colon has no head. It is read as
/// the Wolfram number of a rule with two states and width 3: the result is the head `2:3:-1:w` with the place 0.
/// Returns `Form` if the text begins with one or two digits and a colon, but not with a head.
pub fn read_head(text: &[u8]) -> Result<Head, TextFault>
    ensures head { IfOk result (λ h. IsHead text.now h) }
    ensures fault { IfErr result (λ f. IsTextFault text.now f) }
    ensures form { IfErr result IsForm }
{
    let Ok((k, place)) = field(text, 0) else {
        return Ok(Head {
            k: 2,
            m: 3,
            o: -1,
            kind: Kind::Number,
            place: 0,
        });
    };
    let (m, place) = field(text, place)?;
    let (o, place) = offset(text, place)?;
    let (kind, place) = kind(text, place)?;
    Ok(Head {
        k,
        m,
        o,
        kind,
        place,
    })
}
