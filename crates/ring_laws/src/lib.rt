//! Laws of rings and their sums: how a rule changes the sum along a word, and the flux, which shows whether every
//! ring keeps its sum (Hattori and Takesue 1991).
//!
//! A ring is a word that is read in a circle. It keeps its sum if the letters of its image have the same sum of weights
//! as its own letters.
//!
//! A flux gives a whole number phi(v) to each word v of m - 1 letters. Let f be the rule. For each window w of m
//! letters, `weight(f(w)) - weight(first letter of w) = phi(first m - 1 letters of w) - phi(last m - 1 letters of w)`.
//! Around a ring the differences on the right cancel out. So if there is a flux, every ring keeps its sum.
//!
//! This crate has no functions. Its lemmas only use definitions of word_image. Both the decider and the checker of
//! certificates use them.
#![tactic(auto)]
