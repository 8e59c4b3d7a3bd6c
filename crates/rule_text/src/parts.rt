//! Reads the parts of a text's head `K:M:O:t` or `K:M:O:w`. Each function reads one part, which begins at a given place
//! of the text.
ghost use Rattle.std.specs.Prelude.{◌≡◌, ◌≢◌, false, ◌+◌, ◌<◌, ◌≤◌, ◌∷◌, [], ◌↔◌, IfOk, IfErr, IfSome, IfNone, IsTrue, length, slice_index};
ghost use Rattle.std.specs.Bool.{OnTrue};
ghost use Rattle.rule_text.specs.RuleTexts.{IsDigit};
ghost use Rattle.rule_text.specs.Heads.{GoesOver, GoesOverSmall, GoesOverField, GoesOverOffset, LacksField, LacksOffset, IsRuleFormAt, IsNoKind, kind_text, minus_sign, sign};

use crate::decimals::with_sign;
use crate::head::Kind;
use crate::text_fault::TextFault;

/// Reads one or two digits and the colon after them, from the place `from` of a text. Returns the number that the
/// digits write, and the place after the colon. Returns `Form` if the text has something else there.
pub fn field(text: &[u8], from: usize) -> Result<(u8, usize), TextFault>
    requires { from ≤ length text.now }
    ensures number { IfOk result (λ r. GoesOverField text.now from r.1 r.0) }
    ensures below { IfOk result (λ r. r.0 < 100) }
    ensures within { IfOk result (λ r. r.1 ≤ length text.now) }
    ensures fault { IfErr result (λ f. IsRuleFormAt text.now f (LacksField text.now from)) }
{
    let Some((number, end)) = small(text, from) else {
        return Err(TextFault::Form(from));
    };
    if !stands(text, end, b':') {
        return Err(TextFault::Form(end));
    }
    Ok((number, end + 1))
}

/// Reads an offset and the colon after it, from the place `from` of a text. An offset has one or two digits, which
/// may have a minus sign before them. Returns the offset and the place after the colon. Returns `Form` if the text
/// has something else there.
pub fn offset(text: &[u8], from: usize) -> Result<(i8, usize), TextFault>
    requires { from ≤ length text.now }
    ensures offset { IfOk result (λ r. GoesOverOffset text.now from r.1 r.0) }
    ensures within { IfOk result (λ r. r.1 ≤ length text.now) }
    ensures fault { IfErr result (λ f. IsRuleFormAt text.now f (LacksOffset text.now from)) }
{
    let (minus, start) = minus(text, from);
    let (number, end) = field(text, start)?;
    Ok((with_sign(minus, number), end))
}

/// Reads the last letter of a head at the place `from` of a text: `t` for a table, `w` for a number. Returns the kind
/// that the letter stands for, and the place after the letter. Returns `Form` if another byte is at this place.
pub fn kind(text: &[u8], from: usize) -> Result<(Kind, usize), TextFault>
    requires { from ≤ length text.now }
    ensures over { IfOk result (λ r. GoesOver text.now from r.1 (kind_text r.0)) }
    ensures within { IfOk result (λ r. r.1 ≤ length text.now) }
    ensures fault { IfErr result (λ f. IsRuleFormAt text.now f (λ place. (place ≡ from) × IsNoKind (slice_index text.now place))) }
{
    if stands(text, from, b't') {
        Ok((Kind::Table, from + 1))
    } else if stands(text, from, b'w') {
        Ok((Kind::Number, from + 1))
    } else {
        Err(TextFault::Form(from))
    }
}

/// Reads two digits from the place `from` of a text, or one digit if there aren't two. Returns the number that the
/// digits write and the place after them. Returns None if there is no digit.
fn small(text: &[u8], from: usize) -> Option<(u8, usize)>
    requires { from ≤ length text.now }
    ensures number { IfSome result (λ r. GoesOverSmall text.now from r.1 r.0) }
    ensures below { IfSome result (λ r. r.0 < 100) }
    ensures within { IfSome result (λ r. r.1 ≤ length text.now) }
    ensures none { IfNone result (¬ IsDigit (slice_index text.now from)) }
{
    let first = digit(text, from)?;
    match digit(text, from + 1) {
        Some(second) => Some((first * 10 + second, from + 2)),
        None => Some((first, from + 1)),
    }
}

/// Returns whether a minus sign is at the place `from` of a text. Also returns the place after the minus sign, or
/// `from` if there is none.
pub fn minus(text: &[u8], from: usize) -> (bool, usize)
    requires { from ≤ length text.now }
    ensures over { GoesOver text.now from result.1 (sign result.0) }
    ensures within { result.1 ≤ length text.now }
    ensures none { result.0 ≡ false → slice_index text.now result.1 ≢ minus_sign }
{
    if stands(text, from, b'-') {
        (true, from + 1)
    } else {
        (false, from)
    }
}

/// Returns the value of the decimal digit at a place, if there is one.
fn digit(text: &[u8], place: usize) -> Option<u8>
    requires { place ≤ length text.now }
    ensures below { IfSome result (λ d. d < 10) }
    ensures within { IfSome result (λ d. place < length text.now) }
    ensures over { IfSome result (λ d. GoesOver text.now place (place + 1) ((d + 48) ∷ [])) }
    ensures none { IfNone result (¬ IsDigit (slice_index text.now place)) }
{
    let byte = *text.get(place)?;
    if byte.is_ascii_digit() {
        Some(byte - b'0')
    } else {
        None
    }
}

/// Returns whether this byte is at this place of a text.
fn stands(text: &[u8], place: usize, byte: u8) -> bool
    requires { 0 < byte }
    ensures within { OnTrue result (place < length text.now) }
    ensures over { OnTrue result (GoesOver text.now place (place + 1) (byte ∷ [])) }
    ensures next { IsTrue result ↔ (slice_index text.now place ≡ byte) }
{
    text.get(place) == Some(&byte)
}
