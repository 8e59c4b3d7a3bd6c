//! Functions that call the public functions of `word_image` and `rule_text`, and that name their faults.

ghost use Rattle.std.specs.Prelude.{◌≡◌, ◌<◌, ◌≤◌, ◌^◌, length};
ghost use Rattle.word_image.specs.LocalRules.{IsWord, most_states};

use rule_text::TextFault;
use std::alloc::{AllocError, Global};
use word_image::{
    FluxRow, ImageFault, RankRow, RingFault, Rule, RuleFault, SetList, WeightFault, Weights, Word,
};

/// Makes a rule and returns it twice, which shows that rules can be copied. Returns the first fault if there is no
/// such rule.
pub fn rule(k: u8, m: u8, o: i8, table: &[u8]) -> Result<(Rule, Rule), RuleFault> {
    let rule = Rule::new(k, m, o, table)?;
    Ok((rule, rule))
}

/// Returns the number of states of a rule, its width, its offset, the length of its table, its number of nodes, and
/// the mirrored rule.
pub fn parts(rule: &Rule) -> (u8, u8, i8, u16, u8, Rule) {
    (
        rule.k(),
        rule.m(),
        rule.o(),
        rule.size(),
        rule.nodes(),
        rule.reflect(),
    )
}

/// Returns whether two rules are equal.
pub fn equal(rule: &Rule, other: &Rule) -> bool {
    rule == other
}

/// Returns the letter that the rule gives for the window with this value.
pub fn at(rule: &Rule, value: u16) -> u8
    requires { value < rule.now.states ^ rule.now.width }
{
    rule.at(value)
}

/// Returns the letter that the rule gives for a window.
pub fn apply(rule: &Rule, window: &[u8]) -> u8
    requires word { IsWord rule.now.states window.now }
    requires long { length window.now ≡ rule.now.width }
{
    rule.apply(window)
}

/// Returns the image of a word, or the first fault of the word.
pub fn image(alloc: Global, rule: &Rule, word: &[u8]) -> Result<Vec<u8>, ImageFault> {
    word_image::image(alloc, rule, word)
}

/// Returns the image of a ring, or the first fault of the ring.
pub fn ring_image(alloc: Global, rule: &Rule, ring: &[u8]) -> Result<Vec<u8>, RingFault> {
    word_image::ring_image(alloc, rule, ring)
}

/// Returns the digit of `letter`, and the letter whose digit is `byte`, if `byte` is a digit.
pub fn digits(letter: u8, byte: u8) -> (u8, Option<u8>)
    requires { letter < most_states }
{
    (word_image::digit(letter), word_image::letter(byte))
}

/// Makes two lists of weights for k letters: the weights of this list, and the weights by which each letter weighs
/// its own value. Returns the fault if the list doesn't have k weights.
pub fn weights(k: u8, list: &[u8]) -> Result<(Weights, Weights), WeightFault>
    requires least { 2 ≤ k }
    requires most { k ≤ most_states }
{
    Ok((Weights::new(k, list)?, Weights::own(k)))
}

/// Returns how many letters have a weight, and the weight of `letter`.
pub fn weight(weights: &Weights, letter: u8) -> (u8, u8)
    requires { letter < length weights.now }
{
    (weights.k(), weights.at(letter))
}

/// Makes a value of each type of list: a word, a list of sets, a row of ranks and a flux.
pub fn lists(
    word: Vec<u8>,
    sets: Vec<u16>,
    ranks: Vec<Option<u16>>,
    flux: Vec<i32>,
) -> (Word, SetList, RankRow, FluxRow) {
    (
        Word::of(word),
        SetList::of(sets),
        RankRow::of(ranks),
        FluxRow::of(flux),
    )
}

/// Returns the items of a word, of a list of sets, of a row of ranks and of a flux.
pub fn held<'a>(
    word: &'a Word,
    sets: &'a SetList,
    ranks: &'a RankRow,
    flux: &'a FluxRow,
) -> (&'a [u8], &'a [u16], &'a [Option<u16>], &'a [i32]) {
    (
        word.as_slice(),
        sets.as_slice(),
        ranks.as_slice(),
        flux.as_slice(),
    )
}

/// Reads a rule from its text. Returns the rule and its Wolfram number, if it has one, or the first fault of the
/// text.
pub fn read(text: &[u8]) -> Result<(Rule, Option<u128>), TextFault> {
    let rule = rule_text::parse(text)?;
    Ok((rule, rule_text::number(&rule)))
}

/// Returns the text of a rule.
pub fn print(alloc: Global, rule: &Rule) -> Result<Vec<u8>, AllocError> {
    rule_text::print(alloc, rule)
}

/// Returns each kind of fault with which a rule can be refused.
pub fn rule_faults(window: u16) -> [RuleFault; 6] {
    use RuleFault::{Length, Letter, Nodes, Offset, States, Width};
    [States, Width, Nodes, Offset, Length, Letter(window)]
}

/// Returns each kind of fault that the text of a rule can have.
pub fn text_faults(place: usize) -> [TextFault; 9] {
    use TextFault::{Form, Kind, Length, Letter, Nodes, Number, Offset, States, Width};
    [
        Form(place),
        States,
        Width,
        Nodes,
        Offset,
        Kind,
        Length,
        Letter(place),
        Number,
    ]
}

/// Returns each kind of fault of a word, of a ring and of weights.
pub fn word_faults(place: usize) -> ([ImageFault; 3], [RingFault; 3], WeightFault) {
    (
        [
            ImageFault::Letter(place),
            ImageFault::Short,
            ImageFault::Memory(AllocError),
        ],
        [
            RingFault::Letter(place),
            RingFault::Empty,
            RingFault::Memory(AllocError),
        ],
        WeightFault::Length,
    )
}
