//! The type `Colouring`: new names for the letters of a rule, which may be mirrored first.
//!
//! The new name of a letter is called its colour. A window in new names consists of colours. The same window in old
//! names consists of the letters that have these colours, and is read from right to left if the rule is mirrored.
ghost use Rattle.std.specs.Prelude.{◌≡◌, ◌≢◌, ◌+◌, ◌*◌, ◌^◌, ◌<◌, ◌≤◌, ℕ, slice_index, if◌then◌else◌};
ghost use Rattle.word_image.specs.LocalRules.{IsRule, node_count, most_windows};
ghost use Rattle.word_image.specs.Ends.{end_node, window_with};
ghost use Rattle.word_image.specs.Storage.{padded};
ghost use Rattle.rule_classes.specs.Colourings.{IsColouring, entry, in_colours, old_value, last_side};
ghost use Rattle.rule_classes.specs.Tables.{AreFilled, HasZeros, IsRow};

use crate::classes::MOST_COLOURS;
use word_image::{MOST_ENTRIES, Rule, Side};

/// The values of windows that differ only in one letter.
#[derive(Clone, Copy)]
pub struct Row {
    /// The value of the window in which the letter that differs is 0.
    pub start: u8,
    /// How much the value of a window grows if the letter that differs grows by 1.
    pub step: u8,
}

impl Row {
    /// Returns the value of the window in which the letter that differs is `letter`.
    pub fn window(self, letter: u8) -> u8
        requires { self.start + letter * self.step < most_windows }
        ensures { result ≡ self.start + letter * self.step }
    {
        self.start + letter * self.step
    }
}

/// A permutation of the letters, and whether the rule is mirrored first.
#[derive(Clone, Copy, PartialEq, Eq)]
pub struct Colouring {
    /// Whether windows are read from right to left.
    pub mirrored: bool,
    /// The new name of each letter, which is called its colour.
    pub colours: [u8; MOST_COLOURS],
    /// For each colour, the letter that has it.
    pub letters: [u8; MOST_COLOURS],
}

impl Colouring {
    /// Returns the colouring in which each letter keeps its name. `mirrored` says whether the rule is mirrored first.
    pub fn unchanged(mirrored: bool) -> Colouring
        ensures mirrored { result.mirrored ≡ mirrored }
        ensures colouring { (k : ℕ) → k ≤ 6 → IsColouring k result }
        ensures own { (a : ℕ) → a < 6 → slice_index result.letters a ≡ a }
    {
        Colouring {
            mirrored,
            colours: [0, 1, 2, 3, 4, 5],
            letters: [0, 1, 2, 3, 4, 5],
        }
    }

    /// Returns the colouring in which the letters of the colours `first` and `second` are exchanged. There are k
    /// colours.
    pub fn exchanged(self, k: u8, first: u8, second: u8) -> Colouring
        requires few { k ≤ 6 }
        requires colouring { IsColouring k self }
        requires first { first < k }
        requires second { second < k }
        ensures mirrored { result.mirrored ≡ self.mirrored }
        ensures colouring { IsColouring k result }
        ensures exchanged { slice_index result.letters first ≡ slice_index self.letters second }
        ensures others { (a : ℕ) → a ≢ first → a ≢ second → slice_index result.letters a ≡ slice_index self.letters a }
    {
        let a = self.letters[usize::from(first)];
        let b = self.letters[usize::from(second)];
        let mut new = self;
        new.letters[usize::from(first)] = b;
        new.letters[usize::from(second)] = a;
        new.colours[usize::from(a)] = second;
        new.colours[usize::from(b)] = first;
        new
    }

    /// Writes the table of the rule that this colouring makes from `rule`. `entries` must have a table of the same
    /// length, which is overwritten.
    pub fn fill(&self, rule: &Rule, entries: &mut [u8; MOST_ENTRIES])
        requires rule { IsRule rule.now }
        requires states { rule.now.states ≤ 6 }
        requires colouring { IsColouring rule.now.states self.now }
        requires entries { HasZeros rule.now entries.old }
        ensures { entries.new ≡ padded (in_colours rule.now self.now).table }
    {
        let mut windows = [0; MOST_ENTRIES];
        windows[0] = self.old_window(rule, 0);
        for node in 0..rule.nodes() {
            let row = self.row(rule, windows[usize::from(node)]);
            self.fill_row(rule, row, node, &mut windows, entries);
        }
    }

    /// Writes the k entries of the table for the windows that begin with `node`. `row` has the values of these windows
    /// in old names.
    fn fill_row(
        &self,
        rule: &Rule,
        row: Row,
        node: u8,
        windows: &mut [u8; MOST_ENTRIES],
        entries: &mut [u8; MOST_ENTRIES],
    )
        requires states { rule.now.states ≤ 6 }
        requires colouring { IsColouring rule.now.states self.now }
        requires node { node < node_count rule.now }
        requires row { IsRow rule.now self.now node row }
        requires filled { AreFilled rule.now self.now (node * rule.now.states) windows.old entries.old }
        ensures { AreFilled rule.now self.now ((node + 1) * rule.now.states) windows.new entries.new }
    {
        for letter in 0..rule.k() {
            let window = usize::from(Side::Right.window_with(rule, node, letter));
            let (old, colour) = self.read(rule, row, letter);
            windows[window] = old;
            entries[window] = colour;
        }
    }

    /// Reads one entry of the table that this colouring makes. It is the entry for a window that begins with a node and
    /// ends with `letter`, both in new names. `row` has the values in old names of the windows that begin with this
    /// node. Returns the value of the window in old names, and the colour of the letter that the rule gives for it.
    pub fn read(&self, rule: &Rule, row: Row, letter: u8) -> (u8, u8)
        requires rule { IsRule rule.now }
        requires states { rule.now.states ≤ 6 }
        requires colouring { IsColouring rule.now.states self.now }
        requires row { (u : ℕ) × (u < node_count rule.now) × IsRow rule.now self.now u row }
        requires letter { letter < rule.now.states }
        ensures old { (u : ℕ) → u < node_count rule.now → IsRow rule.now self.now u row → result.0 ≡ old_value rule.now self.now (u * rule.now.states + letter) }
        ensures colour { (u : ℕ) → u < node_count rule.now → IsRow rule.now self.now u row → result.1 ≡ entry rule.now self.now (u * rule.now.states + letter) }
    {
        let old = row.window(self.letters[usize::from(letter)]);
        let given = rule.at(u16::from(old));
        (old, self.colours[usize::from(given)])
    }

    /// Returns the values in old names of the windows that begin with a node, which differ in one letter. `back` is the
    /// value in old names of a window that ends with the node. Each window of the result comes from this window: its
    /// first letter is dropped, and another letter is appended. If the rule is mirrored, the last letter is dropped and
    /// another one is put in front.
    pub fn row(&self, rule: &Rule, back: u8) -> Row
        requires states { rule.now.states ≤ 6 }
        requires back { back < rule.now.states ^ rule.now.width }
        ensures { (letter : ℕ) → result.start + letter * result.step ≡ window_with (last_side self.now.mirrored) rule.now (end_node (last_side self.now.mirrored) rule.now back) letter }
    {
        let back = u16::from(back);
        if self.mirrored {
            Row {
                start: Side::Left.end_node(rule, back),
                step: rule.nodes(),
            }
        } else {
            Row {
                start: Side::Right.end_node(rule, back) * rule.k(),
                step: 1,
            }
        }
    }

    /// Gives the letters of a window their old names, and returns its value. `window` is its value in new names. If the rule is mirrored, the
    /// window is read from right to left.
    pub fn old_window(&self, rule: &Rule, window: u16) -> u8
        requires states { rule.now.states ≤ 6 }
        requires colouring { IsColouring rule.now.states self.now }
        requires window { window < rule.now.states ^ rule.now.width }
        ensures value { result ≡ old_value rule.now self.now window }
        ensures within { result < rule.now.states ^ rule.now.width }
        ensures rule { IsRule rule.now }
    {
        let k = u16::from(rule.k());
        let mut left = window;
        let mut power = 1;
        let mut old = 0;
        for _ in 0..rule.m() {
            let letter = self.letters[usize::from(left % k)];
            old = self.with_letter(k, old, power, letter);
            power *= k;
            left /= k;
        }
        old as u8
    }

    /// Returns the value of a word with one more letter. The letter is put before the word, or after it if the rule is
    /// mirrored. `old` is the value of the word, and `power` is k to the power of its length.
    fn with_letter(&self, k: u16, old: u16, power: u16, letter: u8) -> u16
        requires k { k ≤ 6 }
        requires old { old < most_windows }
        requires power { power ≤ most_windows }
        requires letter { letter < 6 }
        ensures { result ≡ (if self.now.mirrored then old * k + letter else letter * power + old) }
    {
        if self.mirrored {
            old * k + u16::from(letter)
        } else {
            u16::from(letter) * power + old
        }
    }
}
