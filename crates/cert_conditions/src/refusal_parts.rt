//! The parts of a refusal: words and numbers from which its text and its JSON are made. A refusal is the reason why
//! bytes aren't accepted as a certificate.
ghost use Rattle.std.specs.Prelude.{◌≡◌, IfOk};
ghost use Rattle.cert_conditions.specs.RefusalParts as parts;
ghost use Rattle.cert_conditions.specs.RefusalParts.{parts_of, said_in};

use crate::refusal::{Refusal, SplitCause, TwinCause};
use cert_values::{Key, ShapeFault};
use rule_text::{fault_name, fault_place};
use std::alloc::AllocError;
use word_image::Side;

/// The numbers of a refusal. There are at most three.
#[derive(Clone, Copy)]
pub enum RefusalNumbers {
    None,
    One(u64),
    Two(u64, u64),
    Three(u64, u64, u64),
}

/// The parts of a refusal. Its text joins them in this order, and its JSON has a key for each part.
#[derive(Clone, Copy)]
pub struct RefusalParts {
    /// The word for the condition that isn't met, or `format` if the bytes aren't the text of a certificate.
    pub cause: &'static str,
    /// The word for the side of the condition, if it has one.
    pub side: Option<&'static str>,
    /// The word for the reason why the condition isn't met, if there are several reasons.
    pub because: Option<&'static str>,
    /// The word for the part of the certificate that has the wrong shape, if there is one.
    pub key: Option<&'static str>,
    /// The word for the fault of the rule's text, if it has one.
    pub fault: Option<&'static str>,
    /// The numbers of the refusal, for example a pair, a place and letters, a window, or a version.
    pub numbers: RefusalNumbers,
}

impl RefusalParts {
    /// Returns the parts of a refusal. If the refusal is lack of memory, returns this as the error.
    pub fn of(refusal: Refusal) -> Result<RefusalParts, AllocError>
        ensures parts { IfOk result (λ made. said_in made ≡ parts_of refusal) }
        ensures memory { (e : AllocError) → result ≡ Err e → refusal ≡ Refusal.Memory e }
    {
        let parts = match refusal {
            Refusal::Format(fault) => shape_parts(fault),
            Refusal::Rank(side, pair) => {
                bare_parts("rank", RefusalNumbers::One(pair.into())).add_side(side)
            }
            Refusal::NoFull => bare_parts("nofull", RefusalNumbers::None),
            Refusal::EmptySet(index) => bare_parts("emptyset", RefusalNumbers::One(index as u64)),
            Refusal::NotClosed(index, letter) => {
                bare_parts(
                    "notclosed",
                    RefusalNumbers::Two(index as u64, letter.into()),
                )
            }
            Refusal::NoFirst(pair) => bare_parts("nofirst", RefusalNumbers::One(pair.into())),
            Refusal::Diagonal(index) => bare_parts("diagonal", RefusalNumbers::One(index as u64)),
            Refusal::Leaves(index, a, b) => {
                bare_parts(
                    "leaves",
                    RefusalNumbers::Three(index as u64, a.into(), b.into()),
                )
            }
            Refusal::Orphan => bare_parts("orphan", RefusalNumbers::None),
            Refusal::Window(pair) => bare_parts("window", RefusalNumbers::One(pair.into())),
            Refusal::Twins(cause) => {
                bare_parts("twins", RefusalNumbers::None).add_reason(twin_name(cause))
            }
            Refusal::Ahead(side, pair) => {
                bare_parts("ahead", RefusalNumbers::One(pair.into())).add_side(side)
            }
            Refusal::Split(side, cause) => {
                bare_parts("split", RefusalNumbers::None)
                    .add_side(side)
                    .add_reason(split_name(cause))
            }
            Refusal::Flux(window) => bare_parts("flux", RefusalNumbers::One(window.into())),
            Refusal::Ring => bare_parts("ring", RefusalNumbers::None),
            Refusal::Memory(fault) => return Err(fault),
        };
        Ok(parts)
    }

    /// Adds the word for a side to the parts.
    fn add_side(self, side: Side) -> RefusalParts
        ensures { said_in result ≡ parts.add_side side (said_in self) }
    {
        RefusalParts {
            cause: self.cause,
            side: Some(side_name(side)),
            because: self.because,
            key: self.key,
            fault: self.fault,
            numbers: self.numbers,
        }
    }

    /// Adds the word for a reason to the parts.
    fn add_reason(self, why: &'static str) -> RefusalParts
        ensures { said_in result ≡ parts.add_reason why.now (said_in self) }
    {
        RefusalParts {
            cause: self.cause,
            side: self.side,
            because: Some(why),
            key: self.key,
            fault: self.fault,
            numbers: self.numbers,
        }
    }
}

/// Returns the parts of a refusal with this word for the condition, these numbers, and nothing else.
fn bare_parts(cause: &'static str, numbers: RefusalNumbers) -> RefusalParts
    ensures { said_in result ≡ parts.bare_parts cause.now numbers }
{
    RefusalParts {
        cause,
        side: None,
        because: None,
        key: None,
        fault: None,
        numbers,
    }
}

/// Returns the parts of a refusal because of the first fault of a certificate's text.
fn shape_parts(fault: ShapeFault) -> RefusalParts
    ensures { said_in result ≡ parts.shape_parts fault }
{
    let (because, key, fault, numbers) = match fault {
        ShapeFault::NotJson => ("notjson", None, None, RefusalNumbers::None),
        ShapeFault::Version(version) => ("version", None, None, RefusalNumbers::One(version)),
        ShapeFault::Shape(key) => ("shape", Some(key_name(key)), None, RefusalNumbers::None),
        ShapeFault::Rule(fault) => {
            let numbers = match fault_place(fault) {
                None => RefusalNumbers::None,
                Some(place) => RefusalNumbers::One(place as u64),
            };
            ("rule", None, Some(fault_name(fault)), numbers)
        }
    };
    RefusalParts {
        cause: "format",
        side: None,
        because: Some(because),
        key,
        fault,
        numbers,
    }
}

/// Returns the word for the part of a certificate that has the wrong shape.
fn key_name(key: Key) -> &'static str
    ensures { result.now ≡ parts.key_text key }
{
    match key {
        Key::Top => "top",
        Key::Version => "version",
        Key::Rule => "rule",
        Key::Surjective => "surjective",
        Key::Injective => "injective",
        Key::Right => "right",
        Key::Left => "left",
        Key::Conserving => "conserving",
        Key::Weights => "weights",
        Key::Ranks => "ranks",
        Key::Unknown => "unknown",
    }
}

/// Returns the word for a side.
fn side_name(side: Side) -> &'static str
    ensures { result.now ≡ parts.side_text side }
{
    match side {
        Side::Right => "right",
        Side::Left => "left",
    }
}

/// Returns the word for the reason why two words aren't twins.
fn twin_name(cause: TwinCause) -> &'static str
    ensures { result.now ≡ parts.twin_text cause }
{
    match cause {
        TwinCause::Length => "length",
        TwinCause::Same => "same",
        TwinCause::Image => "image",
    }
}

/// Returns the word for the reason why two configurations aren't a split.
fn split_name(cause: SplitCause) -> &'static str
    ensures { result.now ≡ parts.split_text cause }
{
    match cause {
        SplitCause::Same => "same",
        SplitCause::Apart => "apart",
        SplitCause::Image => "image",
    }
}
