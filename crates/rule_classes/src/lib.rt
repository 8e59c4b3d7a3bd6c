//! Classes of rules, and second-order lifts.
//!
//! The class of a rule consists of all rules at offset 0 that you get from the table of the rule, or from the table of
//! the mirrored rule, by new names for the letters. The new names are called *colours* here. A *colouring* says which
//! letter has which colour, and whether the rule is mirrored first. The least rule of a class is the rule with the
//! least Wolfram number. It has the same verdicts as the given rule. But if it comes from the mirrored rule, right and
//! left are exchanged.
//!
//! The 256 rules of two states and width 3 form 88 classes. The class of rule 110 has four rules: rule 110, its
//! mirrored rule 124, and the rules 137 and 193, which come from these two by an exchange of the letters. `ca classes 2
//! 3 0 256` counts the classes, and `ca least 193` prints rule 110 with the offset 0.
//!
//! The least rule is found by branch and bound. The letter for the greatest window counts most in a Wolfram number, so
//! tables are compared from this window down. The search first chooses the letter of the greatest colour, then of the
//! least colour, then of the second greatest colour, and so on. A colour is *free* as long as no letter is chosen for
//! it. The chosen letters determine the entries of the table for some of the greatest windows. An entry that isn't
//! known yet is at least the least free colour. The search leaves a branch as soon as no table of the branch can be
//! less than the best table so far.
//!
//! For example, rule 193 gives 1 for 000 and for 111. If the colours are exchanged, the window 111 is the old
//! window 000. Its entry is the colour of 1, which is 0. If each letter keeps its name, the entry is 1. So the least
//! rule has exchanged colours.
//!
//! The letters of the second-order lift of a rule f (Toffoli and Margolus 1990) are pairs of letters, which have a
//! first and a second *member*. A cell with the pair (a, b) gets the pair (c - b, a), modulo the number of states. Here
//! c is the letter that f gives for the first members of the window. So the lifted rule remembers the letter of each
//! cell, and the *unlifted* rule undoes it. This shows that the lifted rule is injective. For example, the sum of two
//! cells modulo 2 has the lift `4:2:0:t0022220033111133`.
//!
//! Nothing here needs memory. For k states and width m, `class_of` takes time **O(k! * m * k^m)** at most. It takes
//! so long if exchanging letters often changes nothing. For most rules it takes only the time for a few tables.
//! `lift` and `unlift` take **O(m * k^(2m))**.
#![tactic(auto)]

mod best;
mod classes;
mod colourings;
mod lifts;
mod members;
mod search;

pub use classes::{ClassFault, ClassPlace, class_of, one_least_of_class};
pub use lifts::{LiftFault, lift, lift_name, unlift};
