//! Lists of at most 16 numbers, which need no memory.
ghost use Rattle.std.specs.Prelude.{◌≡◌, ◌<◌, ◌++◌, ◌∷◌, [], length};

use std::marker::Model;
use word_image::MOST_STATES;

/// A list of at most 16 numbers below 256: the weights of letters, or new names for them.
#[derive(Drop)]
pub struct ShortList {
    items: [u8; MOST_STATES],
    // How many numbers the list has. They are the first ones of `items`.
    count: usize,
}

impl Model for ShortList {
    ghost use Rattle.std.specs.Prelude.{◌≤◌, ℕ, List, take};

    ghost Value = { List ℕ };

    ghost view = { λ l. take l.count l.items };

    ghost invariant = { λ l. l.count ≤ 16 };
}

impl ShortList {
    /// Makes an empty list.
    pub fn new() -> ShortList
        ensures { result ≡ [] }
    {
        ShortList {
            items: [0; MOST_STATES],
            count: 0,
        }
    }

    /// Appends a number to a list, which has at most 15 numbers.
    pub fn push(&mut self, item: u8)
        requires { length self.old < 16 }
        ensures { self.new ≡ self.old ++ item ∷ [] }
    {
        self.items[self.count] = item;
        self.count += 1;
    }

    /// Returns the numbers of the list in their order.
    pub fn as_slice(&self) -> &[u8]
        ensures { result.now ≡ self.now }
    {
        &self.items[..self.count]
    }
}
