//! The type `Marks`, which stores for each set of nodes whether it is marked.

ghost use Rattle.std.specs.Prelude.{◌≡◌, ◌+◌, ◌<◌, ◌↔◌, ◌⊎◌, ℕ, IsTrue};
ghost use Rattle.word_image.specs.LocalRules.{most_nodes};
ghost use Rattle.cert_conditions.specs.Sets.{HasPart};
ghost use Rattle.cert_check.specs.Rows.{IsMarked, AreMarked, AreKept, without};

use cert_values::CertVersion;
use word_image::MOST_NODES;

/// The number of rows. Each row has the marks of 16 of the 65,536 sets.
const ROWS: usize = 4096;

/// For each set of at most sixteen nodes, whether it is marked.
#[derive(Drop)]
pub struct Marks {
    // The mark of set s is bit s % 16 of row s / 16.
    rows: [u16; ROWS],
}

impl Marks {
    /// Makes marks. No set is marked yet.
    pub fn new() -> Marks
        ensures { (s : ℕ) → ¬ IsMarked result.rows s }
    {
        Marks { rows: [0; ROWS] }
    }

    /// Makes marks on exactly the sets of a list.
    pub fn of(sets: &[u16]) -> Marks
        ensures { AreMarked result.rows sets.now }
    {
        let mut marks = Marks::new();
        for set in sets {
            marks.mark(*set);
        }
        marks
    }

    /// Marks the sets to which a step from a listed set may lead in this version. In version 1 these are the listed
    /// sets. In versions 2 and 3 they are the sets that contain a listed set. Marks only sets up to the number `full`,
    /// which is the set of all nodes.
    pub fn kept(version: CertVersion, full: u16, sets: &[u16]) -> Marks
        ensures { AreKept version full sets.now result.rows }
    {
        match version {
            CertVersion::One => Marks::of(sets),
            CertVersion::Two | CertVersion::Three => Marks::supersets(full, sets),
        }
    }

    /// Marks those sets up to the number `full` that contain a set of the list.
    fn supersets(full: u16, sets: &[u16]) -> Marks
        ensures { (s : ℕ) → IsMarked result.rows s ↔ ((s < full + 1) × HasPart sets.now s) }
    {
        let listed = Marks::of(sets);
        let mut above = Marks::new();
        for number in 0..u32::from(full) + 1 {
            let set = number as u16;
            if !is_above(&listed, &above, set) {
                continue;
            }
            above.mark(set);
        }
        above
    }

    /// Returns whether, for some node, the set without this node is marked. If the node isn't in the set, the set
    /// without it is the set itself.
    fn has_without_one(&self, set: u16) -> bool
        ensures { IsTrue result ↔ ((n : ℕ) × (n < most_nodes) × IsMarked self.now.rows (without set n)) }
    {
        for node in 0..MOST_NODES as u16 {
            if self.has(set & !(1u16 << node)) {
                return true;
            }
        }
        false
    }

    /// Returns whether a set is marked.
    pub fn has(&self, set: u16) -> bool
        ensures { IsTrue result ↔ IsMarked self.now.rows set }
    {
        self.rows[usize::from(set / 16)] >> (set % 16) & 1 == 1
    }

    /// Marks one more set, and keeps all other marks.
    pub fn mark(&mut self, set: u16)
        ensures { (s : ℕ) → IsMarked self.new.rows s ↔ ((s ≡ set) ⊎ IsMarked self.old.rows s) }
    {
        self.rows[usize::from(set / 16)] |= 1u16 << (set % 16);
    }
}

/// Returns whether `listed` marks the set, or `above` marks the set without some node.
fn is_above(listed: &Marks, above: &Marks, set: u16) -> bool
    ensures { IsTrue result ↔ (IsMarked listed.now.rows set ⊎ ((n : ℕ) × (n < most_nodes) × IsMarked above.now.rows (without set n))) }
{
    if listed.has(set) {
        return true;
    }
    above.has_without_one(set)
}
