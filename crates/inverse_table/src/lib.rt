//! The inverse of an injective cellular automaton as a table (Amoroso and Patt 1972).
//!
//! A *window* (n, c) stands for n letters of an image and a place c in their preimages, which are words of n + m - 1
//! letters. It is *determined* if any two words of n + m - 1 letters with the same image have the same letter at
//! place c. Then n cells of an image determine one cell of the configuration. The *inverse map* has a letter for each
//! word of n letters, at the value of the word: the letter at place c of every word with this image. If the rule has
//! offset o, the image of a word begins o cells before the word, and letter c is c cells after the word's first
//! letter. So the map computes the letter of cell i from the cells of the image that begin at i - o - c, and its
//! offset is -o - c.
//!
//! Rule 170 copies the right cell, so the window (1, 2) is determined: the image of abc is c. Its map is 0 1 with the
//! offset -1: the image has each cell one place further to the left. Over the window (2, 2) the map is 0 0 1 1, which
//! gives the first of two letters. The window (1, 0) isn't determined, since 000 and 100 have the image 0. `ca inverse
//! 170` prints this map.
//!
//! A map with n up to 5 is a rule of width n if it keeps the limits of a rule. A map with n = 1 becomes a rule of
//! width 2 that ignores its second cell. For rule 170 this rule has the table 0 0 1 1.
//!
//! [`TableRoom::table`] lists the images of all k^(n + m - 1) words, at most 2^20. It computes the image of each word
//! from the image of the word without its last letter. It takes **O(k^(n + m - 1))** time. A [`TableRoom`] has 2 MB of
//! memory for one of these lists, borrows another such list, and lends the letters of the map as a [`LentMap`]. [`table`]
//! makes a room for one map, and copies the letters into an [`InverseMap`]. [`as_rule`] and [`LentMap::as_rule`] take
//! time **O(k^n)** and no memory.
#![tactic(auto)]

mod cycles;
mod image_values;
mod inverse_map;
mod lent_map;
mod letters;
mod table_room;
mod tables;

// The programs of this repository use these.
pub use image_values::MOST_IMAGES;
pub use lent_map::LentMap;
pub use table_room::{NoMap, TableRoom};

// For other programs in Rattle. No program of this repository uses these.
pub use inverse_map::{InverseMap, as_rule};
pub use tables::{InvFault, table};
