//! Why bytes aren't the text of a certificate.
use rule_text::TextFault;

/// A part of a certificate. A fault names the part that has the wrong shape.
#[derive(Clone, Copy, Debug, PartialEq, Eq)]
pub enum Key {
    /// The whole text, which isn't a JSON object.
    Top,
    /// The version, which is missing or isn't a whole number.
    Version,
    /// The rule, which is missing or isn't a string.
    Rule,
    /// The evidence about surjectivity.
    Surjective,
    /// The evidence about injectivity.
    Injective,
    /// The evidence about closing on the right.
    Right,
    /// The evidence about closing on the left.
    Left,
    /// The evidence about conservation of the sum of weights.
    Conserving,
    /// The weights of the letters.
    Weights,
    /// The claims, which are bounds of the ranks of the pairs of nodes.
    Ranks,
    /// Another key, which no certificate of this version has.
    Unknown,
}

/// The first fault of bytes that aren't the text of a certificate.
#[derive(Clone, Copy, Debug, PartialEq, Eq)]
pub enum ShapeFault {
    /// The bytes aren't JSON.
    NotJson,
    /// The version is a whole number, but not 1, 2 or 3.
    Version(u64),
    /// This part is missing or has the wrong shape.
    Shape(Key),
    /// The rule is a string, but not the text of a rule. It has this fault.
    Rule(TextFault),
}
