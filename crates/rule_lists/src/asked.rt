//! The question that a search of rules answers.
use crate::letters::FixedLetters;
use crate::properties::Property;
use word_image::Rule;

/// A question: which rules of a shape, with offset 0, have a property and all fixed letters?
#[derive(Clone, Copy)]
pub struct Asked<'a> {
    /// The property that the rules have.
    pub property: Property,
    /// Any rule of the shape. Only its states and its width matter.
    pub shape: &'a Rule,
    /// The fixed letters. Each rule that answers the question has all of them.
    pub fixed: &'a FixedLetters,
    /// The windows in the order in which a search fills the table. The rank of a rule is the number whose digits are
    /// its letters in this order.
    pub order: &'a [u8],
}
