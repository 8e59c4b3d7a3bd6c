//! Hints that known letters rule out a property, found letter by letter.
//!
//! A search fills the table of a rule window by window, in a given order. The letters so far are called known, and some
//! letters are fixed in advance. Known letters lead from a pair of nodes to another pair along two windows with the
//! same known letter. A hint is a walk of such pairs that shows that no rule with the known letters has the property.
ghost use Rattle.std.specs.Prelude.{◌≤◌, length};
ghost use Rattle.word_image.specs.LocalRules.{most_windows};

use crate::asked::Asked;
use crate::cycles::Cycles;
use crate::letters::FixedLetters;
use crate::properties::Property;
use crate::reach::{Links, Reach};
use crate::tables::Table;
use word_image::{MOST_ENTRIES, Rule, Side};

/// Finds hints on one side. For each number of known letters it stores the pairs to which these letters lead. So it
/// only has to look at the last letter. It has no contract: each hint is tested before it is used.
#[derive(Drop)]
pub(crate) struct Hint {
    /// The property that the hints may rule out.
    property: Property,
    /// The side of the hints. Edges are followed forward on the right side, and backward on the left.
    pub(crate) side: Side,
    /// The known letters, by the values of the windows, and 255 at all other windows.
    letters: FixedLetters,
    /// The number of windows at the beginning of the order that have a known letter.
    placed: u16,
    /// Whether the fixed letters give a hint without any other letter.
    begun: bool,
    /// The pairs of nodes to which the known letters lead.
    reach: Reach,
    /// The search for cycles of pairs, with the cycle that it found last.
    cycles: Cycles,
    /// The number of the pair in the last hint. This pair has two equal nodes or is on a cycle.
    pair: u8,
}

impl Hint {
    /// Makes the hints of a search that hasn't set any letter: only the fixed letters are known.
    fn of(side: Side, asked: &Asked) -> Hint {
        let shape = asked.shape;
        let mut hint = Hint {
            property: asked.property,
            side,
            letters: [u8::MAX; MOST_ENTRIES],
            placed: 0,
            begun: false,
            reach: Reach::of(side, shape),
            cycles: Cycles::new(),
            pair: 0,
        };
        for window in 0..shape.size() {
            let letter = asked.fixed[usize::from(window)];
            if letter < shape.k() && !hint.begun {
                hint.begun = hint.add_letter(window as u8, letter, true);
            }
        }
        hint.reach.mark_level(0);
        hint
    }

    /// Returns the number of the pair in the last hint.
    pub(crate) fn pair(&self) -> u16 {
        u16::from(self.pair)
    }

    /// Returns for each pair the pair before it: the pair from which a step first led to it.
    pub(crate) fn predecessors(&self) -> &Links {
        &self.reach.before
    }

    /// Returns for each pair of the last cycle the pair after it on the cycle.
    pub(crate) fn successors(&self) -> &Links {
        &self.cycles.after
    }

    /// Adds the letter at window n - 1 of the order. The letters at all windows before it must have been added earlier.
    /// Returns whether there is a hint that all these letters and the fixed letters rule out the property. If n is 0,
    /// adds nothing and returns whether the fixed letters give a hint. Looks for cycles only if `looking` is true.
    fn push(&mut self, asked: &Asked, entries: &Table, n: u16, looking: bool) -> bool
        requires within { n ≤ length asked.now.order.now }
        requires few { length asked.now.order.now ≤ most_windows }
    {
        if n == 0 {
            return self.begun;
        }
        self.forget(asked, n - 1);
        self.placed = n;
        self.reach.go_back(n - 1);
        let window = asked.order[usize::from(n - 1)];
        let stood = asked.fixed[usize::from(window)] < self.reach.edges.k();
        let hint = !stood && self.add_letter(window, entries[usize::from(window)], looking);
        self.reach.mark_level(n);
        hint
    }

    /// Removes the letters after the first n windows of the order, except the fixed letters.
    fn forget(&mut self, asked: &Asked, n: u16) {
        for place in usize::from(n)..usize::from(self.placed).min(asked.order.len()) {
            let window = asked.order[place];
            let letter = self.letters[usize::from(window)];
            if asked.fixed[usize::from(window)] >= self.reach.edges.k() {
                self.letters[usize::from(window)] = u8::MAX;
                self.reach.edges.remove(window, letter);
            }
        }
    }

    /// Adds the letter at a window, and returns whether this gives a hint. Looks for a cycle only if `looking` is
    /// true.
    fn add_letter(&mut self, window: u8, letter: u8, looking: bool) -> bool {
        self.letters[usize::from(window)] = letter;
        if let Some(pair) = self.reach.add(&self.letters, window, letter) {
            self.pair = pair;
            return true;
        }
        if !looking {
            return false;
        }
        if let Some(pair) = self.find_cycle(window, letter) {
            self.pair = pair;
            return true;
        }
        false
    }

    /// Returns the number of a pair on a cycle that the last known letter closes. Returns None if the letter closes no
    /// cycle, or if a cycle doesn't rule out the property. For example, no cycle rules out that a rule is surjective.
    fn find_cycle(&mut self, window: u8, letter: u8) -> Option<u8> {
        let from = self.reach.edges.first_node(window);
        let nodes = match self.property {
            Property::Surjective => return None,
            Property::Injective => u16::MAX,
            _ => self.reach.partners(from),
        };
        let to = self.reach.edges.last_node(window);
        let ends = self.reach.edges.all_ends(letter, nodes);
        self.cycles.find(&self.reach.edges, &self.letters, to, ends)
    }
}

/// The hints that a search keeps while it fills tables. They only change how soon the search finds a rule, and not
/// which rule it finds.
#[derive(Drop)]
pub struct Hints {
    /// The hints on the left side for left-closing rules, and on the right side for all other properties.
    first: Hint,
    /// The hints on the left side for open rules, and None for all other properties.
    second: Option<Hint>,
    /// Whether `push` looked last at the hints in `second`, not in `first`.
    second_was_last: bool,
}

impl Hints {
    /// Makes the hints of a search that hasn't set any letter: only the fixed letters are known.
    pub(crate) fn of(asked: &Asked) -> Hints {
        let side = match asked.property {
            Property::LeftClosing => Side::Left,
            _ => Side::Right,
        };
        let second = match asked.property {
            Property::Open => Some(Hint::of(Side::Left, asked)),
            _ => None,
        };
        Hints {
            first: Hint::of(side, asked),
            second,
            second_was_last: false,
        }
    }

    /// Adds the letters at the first n - 1 windows of the order, one after another. Skips letters that have been added
    /// before.
    pub(crate) fn catch_up(&mut self, asked: &Asked, entries: &Table, n: u16)
        requires within { n ≤ length asked.now.order.now }
        requires few { length asked.now.order.now ≤ most_windows }
    {
        for place in self.first.placed.saturating_add(1).max(1)..n {
            let _ = self.push(asked, entries, place, false);
        }
    }

    /// Adds the letter at window n - 1 of the order. The letters at all windows before it must have been added earlier.
    /// Returns whether there is a hint that all these letters and the fixed letters rule out the property. Looks for
    /// cycles only if `looking` is true. Always returns true for conserving rules, since their test uses no hints.
    pub(crate) fn push(&mut self, asked: &Asked, entries: &Table, n: u16, looking: bool) -> bool
        requires within { n ≤ length asked.now.order.now }
        requires few { length asked.now.order.now ≤ most_windows }
    {
        if let Property::Conserving = self.first.property {
            return true;
        }
        self.second_was_last = false;
        if self.first.push(asked, entries, n, looking) {
            return true;
        }
        if let Some(second) = &mut self.second {
            self.second_was_last = true;
            return second.push(asked, entries, n, looking);
        }
        false
    }

    /// Returns the hints on the side where `push` looked last.
    pub(crate) fn last(&self) -> &Hint {
        match &self.second {
            Some(second) if self.second_was_last => second,
            _ => &self.first,
        }
    }
}
