//! Words that need no memory of their own: they stand in an array, or a room lends them.
//!
//! A [`ShortWord`] has at most 520 letters. The least walk of a search has at most 512 steps, and an erasable pair has at
//! most 4 letters more. So a search can return such a word by value, and can't fail for lack of memory. A [`LentWord`]
//! has at most 131,073 letters. A least orphan has at most 65,535, and the least word that is an orphan of only one of
//! two rules has at most 131,073.
#![tactic(auto)]

mod lent_word;
mod short_word;

pub use lent_word::{LentWord, MOST_LENT};
pub use short_word::{MOST_LETTERS, ShortPair, ShortWord};
