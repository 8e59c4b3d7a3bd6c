//! Rows of marks on sets of nodes, with 64 marks in each row: the mark on set s is bit s % 64 of row s / 64.

ghost use Rattle.std.specs.Prelude.{◌≡◌, ◌+◌, ◌*◌, ◌/◌, ◌<◌, ◌≤◌, ◌↔◌, ◌⊎◌, ℕ, length, Contains, IsTrue, IsBitSet};
ghost use Rattle.word_image.specs.LocalRules.{most_nodes};
ghost use Rattle.image_subsets.specs.Marks.{IsSetMarked, IsSpreadTo, HoldsWithout};

use word_image::MOST_NODES;

/// The number of marks in a row.
pub const ROW: usize = 64;

/// The number of rows for all sets of sixteen nodes.
pub const MOST_ROWS: usize = (1 << MOST_NODES) / ROW;

/// The number of nodes in which the sets of one row can differ. These are the nodes 0 to 5. All sets of a row have the
/// same other nodes.
const LOW_NODES: u8 = 6;

/// For each of the nodes 0 to 5, a row with a mark on each set that contains the node.
const WITH_LOW_NODE: [u64; 6] = [
    0xaaaa_aaaa_aaaa_aaaa,
    0xcccc_cccc_cccc_cccc,
    0xf0f0_f0f0_f0f0_f0f0,
    0xff00_ff00_ff00_ff00,
    0xffff_0000_ffff_0000,
    0xffff_ffff_0000_0000,
];

/// Returns whether a set is marked.
pub fn is_marked(rows: &[u64], set: u16) -> bool
    requires { set / 64 < length rows.now }
    ensures { IsTrue result ↔ IsSetMarked rows.now set }
{
    rows[usize::from(set / 64)] >> (set % 64) & 1 == 1
}

/// Removes the marks of these sets. Also removes all other marks in the rows of these sets.
pub fn unmark(rows: &mut [u64], sets: &[u16])
    requires { 1024 ≤ length rows.old }
    ensures { (x : ℕ) → IsSetMarked rows.new x → IsSetMarked rows.old x × ¬ Contains sets.now x }
{
    for set in sets {
        rows[usize::from(*set / 64)] = 0;
    }
}

/// Marks each set that contains node `u` and for which the set without `u` is marked. Keeps all other marks.
pub fn spread(rows: &mut [u64], u: u8)
    requires node { u < most_nodes }
    requires rows { length rows.old ≤ 1024 }
    ensures { IsSpreadTo u (64 * length rows.old) rows.old rows.old rows.new }
{
    for i in 0..rows.len() {
        let more = with_node(rows, i, u);
        rows[i] |= more;
    }
}

/// Marks each set that contains node `u` and for which the set without `u` is marked in `others`. Keeps all other
/// marks.
pub fn spread_from(rows: &mut [u64], others: &[u64], u: u8)
    requires node { u < most_nodes }
    requires most { length others.now ≤ 1024 }
    requires same { length rows.old ≡ length others.now }
    ensures { (x : ℕ) → x < 64 * length others.now → (IsSetMarked rows.new x ↔ (IsSetMarked rows.old x ⊎ HoldsWithout others.now u x)) }
{
    for i in 0..rows.len() {
        rows[i] |= with_node(others, i, u);
    }
}

/// Returns the row of marks on the sets of row `i` that contain node `u` and for which the set without `u` is marked in
/// `rows`.
fn with_node(rows: &[u64], i: usize, u: u8) -> u64
    requires node { u < most_nodes }
    requires row { i < length rows.now }
    requires most { i < 1024 }
    ensures { (b : ℕ) → b < 64 → (IsBitSet result b ↔ HoldsWithout rows.now u (64 * i + b)) }
{
    if u < LOW_NODES {
        rows[i] << (1u8 << u) & WITH_LOW_NODE[usize::from(u)]
    } else if i >> (u - LOW_NODES) & 1 == 1 {
        rows[i - (1 << (u - LOW_NODES))]
    } else {
        0
    }
}
