//! The function `question`, which reads the words of a command line into the question that they ask. It reads each
//! operand once.
ghost use Rattle.std.specs.Prelude.{◌≡◌, ◌≢◌, ◌∷◌, ◌↔◌, [], ℕ, IsTrue, List, length, map, MatchOption, MatchResult};
ghost use Rattle.rule_text.specs.RuleTexts.{IsRuleText};
ghost use Rattle.ca_commands.specs.declared.names.Name.TheVariants as names;
ghost use Rattle.ca_commands.specs.Commands.{Form, IsCommand, check_command, form_of, rule_count, word_of};
ghost use Rattle.ca_commands.specs.Asked.{weights_in};
ghost use Rattle.ca_commands.specs.Asking.{AreDrawnBy, AreNumberedBy, IsAskedBy, IsCall, IsRuleFault, IsWordFault};

use crate::names::Name;
use crate::operands::{count_of, seed, small};
use crate::short_lists::{colours, weights};
use crate::word_fault::WordFault;
use ca_questions::{Drawn, Numbered, Question, ShortList};
use cert_values::CertVersion;
use rule_text::{decimal_number, decimal_offset, is_decimal};
use std::convert::AsStr;
use tail_config::{TailRoom, TailTextFault, has_form};
use word_image::Rule;

/// Returns whether the words are the command `check`.
pub fn is_check<W: AsStr>(words: &[W]) -> bool
    ensures { IsTrue result ↔ IsCommand (map W.text words.now) check_command }
{
    match one(words) {
        Some(word) => word == "check".as_bytes(),
        None => false,
    }
}

/// Returns the question that the words ask. The words must not be the command `check`. Returns `Usage` if they are no
/// command, or else `RuleFault` for the first operand with a fault, or else `Tail` if the parts of a configuration
/// don't fit the rule. The room lends the configuration of a question.
pub fn question<'w, W: AsStr>(
    room: &'w mut TailRoom,
    words: &[W],
) -> Result<Question<'w>, WordFault>
    requires { ¬ IsCommand (map W.text words.now) check_command }
    ensures { MatchResult result (IsAskedBy (map W.text words.now)) (IsWordFault (map W.text words.now)) }
{
    let Some((word, rest)) = words.split_first() else {
        return Err(WordFault::Usage);
    };
    match Name::of_word(word.as_str()) {
        Some(name) => named_question(room, name, rest),
        None => Err(WordFault::Usage),
    }
}

/// Returns the question that a command with this name and these further words asks, or the reason why it asks none.
#[tactic(auto, using(crate::proofs::laws::Asking::asking))]
fn named_question<'w, W: AsStr>(
    room: &'w mut TailRoom,
    name: Name,
    rest: &[W],
) -> Result<Question<'w>, WordFault>
    requires { name ≡ names.Check → rest.now ≢ [] }
    ensures { MatchResult result (IsAskedBy (word_of name ∷ map W.text rest.now)) (IsWordFault (word_of name ∷ map W.text rest.now)) }
{
    match name {
        Name::Decide => {
            let (rule, weights) = rule_and_weights(name, rest)?;
            Ok(Question::Report(rule, weights))
        }
        Name::Certify => {
            let (rule, weights) = rule_and_weights(name, rest)?;
            Ok(Question::Certify(CertVersion::Two, rule, weights))
        }
        Name::Brief => {
            let (rule, weights) = rule_and_weights(name, rest)?;
            Ok(Question::Certify(CertVersion::Three, rule, weights))
        }
        Name::Orphan
        | Name::Number
        | Name::Reflect
        | Name::Trim
        | Name::Least
        | Name::Lift
        | Name::Unlift
        | Name::Inverse
        | Name::Language
        | Name::Erase => about_rule(name, rest),
        Name::Shift => shift(rest),
        Name::Widen => widen(rest),
        Name::Permute => permute(rest),
        Name::Compose => {
            let (first, second) = two_rules(name, rest)?;
            Ok(Question::Compose(first, second))
        }
        Name::Same => {
            let (first, second) = two_rules(name, rest)?;
            Ok(Question::Same(first, second))
        }
        Name::Preimage => preimage(room, rest),
        Name::Survey => Ok(Question::Survey(numbered(rest)?)),
        Name::Sample => Ok(Question::Sample(drawn(rest)?)),
        Name::Classes => Ok(Question::Classes(numbered(rest)?)),
        Name::Check => Err(WordFault::Usage),
    }
}

/// Returns the question that a name with one rule after it asks.
///
/// It isn't inlined, so that the rule has only one place in memory, and not one for each name.
#[inline(never)]
#[tactic(auto, using(crate::proofs::laws::Asking::asking))]
fn about_rule<W: AsStr>(name: Name, rest: &[W]) -> Result<Question<'static>, WordFault>
    requires one { rule_count name ≡ 1 }
    requires none { form_of name ≡ Form.Nothing }
    ensures { MatchResult result (IsAskedBy (word_of name ∷ map W.text rest.now)) (IsWordFault (word_of name ∷ map W.text rest.now)) }
{
    let rule = one_rule(name, rest)?;
    match name {
        Name::Orphan => Ok(Question::Orphan(rule)),
        Name::Number => Ok(Question::Number(rule)),
        Name::Reflect => Ok(Question::Reflect(rule)),
        Name::Trim => Ok(Question::Trim(rule)),
        Name::Least => Ok(Question::Least(rule)),
        Name::Lift => Ok(Question::Lift(rule)),
        Name::Unlift => Ok(Question::Unlift(rule)),
        Name::Inverse => Ok(Question::Inverse(rule)),
        Name::Language => Ok(Question::Language(rule)),
        Name::Erase => Ok(Question::Erase(rule)),
        _ => unreachable!(),
    }
}

/// Reads the only word after a name as the text of a rule. Returns `Usage` if there isn't exactly one word.
fn one_rule<W: AsStr>(name: Name, rest: &[W]) -> Result<Rule, WordFault>
    requires one { rule_count name ≡ 1 }
    requires none { form_of name ≡ Form.Nothing }
    ensures { MatchResult result
        (λ r. IsCall (word_of name ∷ map W.text rest.now) name (r ∷ []) [])
        (IsWordFault (word_of name ∷ map W.text rest.now)) }
{
    match one(rest) {
        Some(text) => rule_operand(1, text),
        None => Err(WordFault::Usage),
    }
}

/// Reads the two words after a name as the texts of two rules. If both texts have faults, returns the fault of the
/// first one.
fn two_rules<W: AsStr>(name: Name, rest: &[W]) -> Result<(Rule, Rule), WordFault>
    requires two { rule_count name ≡ 2 }
    requires none { form_of name ≡ Form.Nothing }
    ensures { MatchResult result
        (λ rules. IsCall (word_of name ∷ map W.text rest.now) name (rules.0 ∷ rules.1 ∷ []) [])
        (IsWordFault (word_of name ∷ map W.text rest.now)) }
{
    let Some((first, second)) = two(rest) else {
        return Err(WordFault::Usage);
    };
    let first = rule_operand(1, first)?;
    let second = rule_operand(2, second)?;
    Ok((first, second))
}

/// Reads the first word after a name as the text of a rule, and the second word, if there is one, as weights.
fn rule_and_weights<W: AsStr>(
    name: Name,
    rest: &[W],
) -> Result<(Rule, Option<ShortList>), WordFault>
    requires one { rule_count name ≡ 1 }
    requires weights { form_of name ≡ Form.Weights }
    ensures { MatchResult result
        (λ read. (operands : List (List ℕ)) × IsCall (word_of name ∷ map W.text rest.now) name (read.0 ∷ []) operands × (read.1 ≡ weights_in operands))
        (IsWordFault (word_of name ∷ map W.text rest.now)) }
{
    if let Some(text) = one(rest) {
        return Ok((rule_operand(1, text)?, None));
    }
    let Some((text, list)) = two(rest) else {
        return Err(WordFault::Usage);
    };
    let Some(list) = weights(list) else {
        return Err(WordFault::Usage);
    };
    let rule = rule_operand(1, text)?;
    Ok((rule, Some(list)))
}

/// Reads the words after `shift`: a rule R and a number N of cells.
///
/// This function and the three below it aren't inlined, since otherwise LLVM takes 20 seconds more to compile
/// `named_question`.
#[inline(never)]
fn shift<W: AsStr>(rest: &[W]) -> Result<Question<'static>, WordFault>
    ensures { MatchResult result (IsAskedBy (word_of names.Shift ∷ map W.text rest.now)) (IsWordFault (word_of names.Shift ∷ map W.text rest.now)) }
{
    let Some((text, by)) = two(rest) else {
        return Err(WordFault::Usage);
    };
    let Some(by) = decimal_offset(by) else {
        return Err(WordFault::Usage);
    };
    let rule = rule_operand(1, text)?;
    Ok(Question::Shift(rule, by))
}

/// Reads the words after `widen`: a rule R and a width M.
#[inline(never)]
fn widen<W: AsStr>(rest: &[W]) -> Result<Question<'static>, WordFault>
    ensures { MatchResult result (IsAskedBy (word_of names.Widen ∷ map W.text rest.now)) (IsWordFault (word_of names.Widen ∷ map W.text rest.now)) }
{
    let Some((text, width)) = two(rest) else {
        return Err(WordFault::Usage);
    };
    let Some(width) = small(width, 1) else {
        return Err(WordFault::Usage);
    };
    let rule = rule_operand(1, text)?;
    Ok(Question::Widen(rule, width))
}

/// Reads the words after `permute`: a rule R, and a digit for the new name of each letter.
#[inline(never)]
fn permute<W: AsStr>(rest: &[W]) -> Result<Question<'static>, WordFault>
    ensures { MatchResult result (IsAskedBy (word_of names.Permute ∷ map W.text rest.now)) (IsWordFault (word_of names.Permute ∷ map W.text rest.now)) }
{
    let Some((text, letters)) = two(rest) else {
        return Err(WordFault::Usage);
    };
    let Some(letters) = colours(letters) else {
        return Err(WordFault::Usage);
    };
    let rule = rule_operand(1, text)?;
    Ok(Question::Permute(rule, letters))
}

/// Reads the words after `preimage`: a rule R and the text of a configuration with periodic tails.
#[inline(never)]
fn preimage<'w, W: AsStr>(room: &'w mut TailRoom, rest: &[W]) -> Result<Question<'w>, WordFault>
    ensures { MatchResult result (IsAskedBy (word_of names.Preimage ∷ map W.text rest.now)) (IsWordFault (word_of names.Preimage ∷ map W.text rest.now)) }
{
    let Some((text, tail)) = two(rest) else {
        return Err(WordFault::Usage);
    };
    if !has_form(tail) {
        return Err(WordFault::Usage);
    }
    let rule = rule_operand(1, text)?;
    match room.parse(rule.k(), tail) {
        Ok(tail) => Ok(Question::Preimage(rule, tail)),
        Err(TailTextFault::Tail(fault)) => Err(WordFault::Tail(fault)),
        Err(TailTextFault::Form(_)) => unreachable!(),
        Err(TailTextFault::Memory(_)) => unreachable!(),
    }
}

/// Reads the words of a command about rules with consecutive numbers: states, width, first number and count. Returns a
/// fault of the states, of the width or of the last number as a fault of operand 1.
fn numbered<W: AsStr>(rest: &[W]) -> Result<Numbered, WordFault>
    ensures { (n : Name) → rule_count n ≡ 0 → form_of n ≡ Form.Numbers → MatchResult result
        (AreNumberedBy n (map W.text rest.now))
        (IsWordFault (word_of n ∷ map W.text rest.now)) }
{
    let Some((states, width, first, count)) = four(rest) else {
        return Err(WordFault::Usage);
    };
    let (Some(states), Some(width), true, Some(count)) = (
        small(states, 2),
        small(width, 2),
        is_decimal(first, 39),
        count_of(count),
    ) else {
        return Err(WordFault::Usage);
    };
    match Numbered::of(states, width, decimal_number(first), count) {
        Ok(numbers) => Ok(numbers),
        Err(fault) => Err(WordFault::RuleFault(1, fault)),
    }
}

/// Reads the words after `sample`: states, width, seed and count. Returns a fault of the states or of the width as a
/// fault of operand 1.
fn drawn<W: AsStr>(rest: &[W]) -> Result<Drawn, WordFault>
    ensures { MatchResult result
        (AreDrawnBy (map W.text rest.now))
        (IsWordFault (word_of names.Sample ∷ map W.text rest.now)) }
{
    let Some((states, width, from, count)) = four(rest) else {
        return Err(WordFault::Usage);
    };
    let (Some(states), Some(width), Some(seed), Some(count)) = (
        small(states, 2),
        small(width, 2),
        seed(from),
        count_of(count),
    ) else {
        return Err(WordFault::Usage);
    };
    match Drawn::of(states, width, seed, count) {
        Ok(rules) => Ok(rules),
        Err(first) => Err(WordFault::RuleFault(1, first)),
    }
}

/// Reads the text of the rule that is the operand with this number. Returns the first fault of the text, with this
/// number.
fn rule_operand(number: u8, text: &[u8]) -> Result<Rule, WordFault>
    ensures { MatchResult result (IsRuleText text.now) (IsRuleFault number text.now) }
{
    rule_text::parse(text).map_err(|fault| WordFault::RuleFault(number, fault))
}

/// Returns the word of the list if the list has exactly one word.
fn one<W: AsStr>(words: &[W]) -> Option<&[u8]>
    ensures { MatchOption result (length words.now ≢ 1) (λ text. map W.text words.now ≡ text.now ∷ []) }
{
    match words {
        [text] => Some(text.as_str().as_bytes()),
        _ => None,
    }
}

/// Returns the words of the list if the list has exactly two words.
fn two<W: AsStr>(words: &[W]) -> Option<(&[u8], &[u8])>
    ensures { MatchOption result (length words.now ≢ 2) (λ texts. map W.text words.now ≡ texts.0.now ∷ texts.1.now ∷ []) }
{
    match words {
        [first, second] => Some((first.as_str().as_bytes(), second.as_str().as_bytes())),
        _ => None,
    }
}

/// Returns the words of the list if the list has exactly four words.
fn four<W: AsStr>(words: &[W]) -> Option<(&[u8], &[u8], &[u8], &[u8])>
    ensures { MatchOption result (length words.now ≢ 4) (λ texts. map W.text words.now ≡ texts.0.now ∷ texts.1.now ∷ texts.2.now ∷ texts.3.now ∷ []) }
{
    match words {
        [a, b, c, d] => Some((
            a.as_str().as_bytes(),
            b.as_str().as_bytes(),
            c.as_str().as_bytes(),
            d.as_str().as_bytes(),
        )),
        _ => None,
    }
}
