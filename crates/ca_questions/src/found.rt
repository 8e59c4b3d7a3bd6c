//! Findings, which are the right answers to questions about rules, and causes, which say why a question has no finding.
use cert_values::Cert;
use inverse_table::LentMap;
use rule_algebra::AlgebraFault;
use rule_classes::LiftFault;
use rule_verdicts::Report;
use short_words::{LentWord, ShortPair};
use std::alloc::AllocError;
use tail_config::TailFault;
use tail_preimage::LentPre;
use word_image::Rule;

/// A finding: the right answer to a question, as a value. It lends its long lists from the room in which they were
/// found.
#[derive(Drop)]
pub enum Finding<'r> {
    /// The verdicts of a rule, each with the least evidence.
    Report(Report<'r>),
    /// The certificate of a rule, for the judge of certificates.
    Written(Cert),
    /// The least orphan of a rule, or None if the rule is surjective.
    Orphan(Option<LentWord<'r>>),
    /// The Wolfram number of a rule, or None if the rule has 7 states or more.
    Number(Option<u128>),
    /// The rule that the question asks for, for example the mirrored rule or a composition.
    Rule(Rule),
    /// The inverse map of a rule.
    Inverse(Inverse<'r>),
    /// The least automaton of the words that have a preimage.
    Language(Automaton<'r>),
    /// The least word that is an orphan of exactly one of two rules, or None if there is none.
    Same(Option<LentWord<'r>>),
    /// The least erasable pair of a rule, or None if the rule is surjective. An erasable pair is two words that can
    /// replace each other in any configuration without a change of the image.
    Erased(Option<ShortPair>),
    /// A preimage of a configuration, or a part of the configuration that is an orphan.
    Preimage(LentPre<'r>),
    /// How many of the rules that the question names have each property.
    Summary(Counts),
    /// How many of the rules that the question names have each property, and how many classes these rules have.
    Classes(Counts, usize),
}

/// An inverse map: it reads n letters of an image and returns the letter at place c of the preimage. `rule` is the map
/// as a rule, or None if it breaks a limit of rules.
#[derive(Drop)]
pub struct Inverse<'r> {
    pub n: u16,
    pub c: u16,
    pub map: LentMap<'r>,
    pub rule: Option<Rule>,
}

/// An automaton. Its states are called classes and are numbers. It reads words of k letters, and `states` is k. The
/// class that follows class i on the letter a is at the place i k + a of `next`. `dead` is the class of the orphans, if
/// there are any.
#[derive(Drop)]
pub struct Automaton<'r> {
    pub states: u8,
    pub classes: u32,
    pub next: &'r [u16],
    pub dead: Option<u32>,
}

/// How many rules there are, and how many of them have each property.
#[derive(Clone, Copy)]
pub struct Counts {
    pub rules: u16,
    pub surjective: u16,
    pub injective: u16,
    pub right: u16,
    pub left: u16,
    pub open: u16,
    pub conserving: u16,
}

/// A cause: why a question has no finding.
#[derive(Drop)]
pub enum Cause {
    /// The rule has these twins, so it has no inverse.
    Twins(ShortPair),
    /// The inverse of the rule reads this many letters, which are too many.
    Wide(u16),
    /// The rule has too many states to search through all new names for its letters.
    Colours,
    /// The rule has no lift, because of this fault.
    Lift(LiftFault),
    /// No rule can be made, because of this fault.
    Algebra(AlgebraFault),
    /// The three parts don't form a configuration, because of this fault.
    Tail(TailFault),
    /// The number of weights isn't the number of letters.
    Weights,
    /// The two rules have different numbers of states.
    States,
}

/// Why nothing was found for a question.
#[derive(Drop)]
pub enum Stop {
    /// The question has no finding, because of this cause.
    NotFit(Cause),
    /// There is not enough memory.
    Memory(AllocError),
}

impl From<AllocError> for Stop {
    ghost use Rattle.std.specs.Prelude.{◌≡◌};
    ghost use Rattle.ca_questions.specs.declared.found.Stop.TheVariants.{Memory};

    ghost from_gives = { λ fault stop. stop ≡ Memory fault };

    fn from(fault: AllocError) -> Stop {
        Stop::Memory(fault)
    }
}
