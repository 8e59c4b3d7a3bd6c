//! Answers to questions about the words that have a preimage.
ghost use Rattle.std.specs.Prelude.{◌≡◌};
ghost use Rattle.image_minimal.specs.ImageLanguages.{IsLeastAutomaton};
ghost use Rattle.ca_questions.specs.Questions.{Question};
ghost use Rattle.ca_questions.specs.Findings.{IsFinding};
ghost use Rattle.ca_questions.specs.Values.{Settles, automaton_of, finding_of};
ghost use Rattle.ca_answering.specs.OneClass as one;

use crate::room::{AnswerRoom, Numbers};
use ca_questions::{Automaton, Cause, Finding};
use debruijn::Graph;
use eden_law::{is_surjective, least_erasable};
use image_minimal::{Minimal, SeparationRoom};
use least_walk::Queue;
use short_words::LentWord;
use word_image::Rule;

/// Returns the answer with the least automaton of the words that have a preimage.
pub fn language<'r>(room: &'r mut AnswerRoom, rule: &Rule) -> Finding<'r>
    ensures { IsFinding (Question.Language rule.now) (finding_of result) }
{
    if is_surjective(&Graph::of(rule)) {
        return Finding::Language(one_class(&mut room.numbers, rule.k()));
    }
    room.minimal.set_rule(rule);
    Finding::Language(automaton(&room.minimal, &mut room.numbers))
}

/// Returns the automaton of a surjective rule of k states. It has one class, since each word has a preimage.
fn one_class(numbers: &mut Numbers, k: u8) -> Automaton<'_>
    ensures { automaton_of result ≡ one.one_class k }
{
    numbers.list.clear();
    numbers.list.resize(usize::from(k), 0).unwrap();
    Automaton {
        states: k,
        classes: 1,
        next: &numbers.list,
        dead: None,
    }
}

/// Returns the least automaton in the form that answers have, with the next classes of each class.
fn automaton<'r>(minimal: &Minimal, numbers: &'r mut Numbers) -> Automaton<'r>
    ensures { IsLeastAutomaton minimal.now (automaton_of result) }
{
    let (states, classes) = (minimal.k(), minimal.len());
    minimal.write_rows(&mut numbers.list);
    Automaton {
        states,
        classes,
        next: &numbers.list,
        dead: minimal.dead(),
    }
}

/// Returns the least word that is an orphan of exactly one of the two rules, or an answer without a word if they have
/// the same orphans. Returns the cause `States` if the rules have different numbers of states.
///
/// The function isn't inlined, since otherwise the loop of the search keeps more on the stack.
#[inline(never)]
pub fn same<'r>(
    room: &'r mut SeparationRoom,
    first: &Rule,
    second: &Rule,
) -> Result<Finding<'r>, Cause>
    ensures { Settles (Question.Same first.now second.now) result }
{
    if first.k() != second.k() {
        return Err(Cause::States);
    }
    match room.separate(first, second) {
        Some(word) => Ok(Finding::Same(Some(LentWord::of(word)))),
        None => Ok(Finding::Same(None)),
    }
}

/// Returns the least erasable pair: two words that can replace each other in any configuration without a change of the
/// image. The answer has no pair if the rule is surjective. `queue` has memory for the search.
pub fn erase(queue: &mut Queue, rule: &Rule) -> Finding<'static>
    ensures { IsFinding (Question.Erase rule.now) (finding_of result) }
{
    Finding::Erased(least_erasable(queue, rule))
}
