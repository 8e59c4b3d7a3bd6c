//! Comparing two Tails: the place at which they differ, whether they share an image, and whether they agree on a
//! side.
//!
//! A Tail is a configuration with a left period, a middle that begins at place 0, and a right period.
ghost use Rattle.std.specs.Prelude.{◌≡◌, ◌^◌, ◌<◌, ◌≤◌, ◌+◌, ◌↔◌, ℕ, IsTrue, IsNone, IfNone, IfSome, OnSome, unsigned_abs, pos, negsuc, ◌+ℤ◌};
ghost use Rattle.tail_config.specs.Tails.{Same, ShareImage, AgreeLeft, AgreeRight, image_cell};
ghost use Rattle.tail_config.specs.Differences.{IsFirstDifference, IsNearestDifference, left_cells, right_cells, most_middle};

use crate::tail::Tail;
use word_image::Rule;

/// Returns the place nearest to 0 at which two Tails differ, or None if all their cells are equal. If two places are
/// equally near, returns the positive one.
pub fn differ(a: &Tail, b: &Tail) -> Option<i64>
    ensures same { IsNone result ↔ Same a.now.config b.now.config }
    ensures nearest { IfSome result (IsNearestDifference a.now.config b.now.config) }
    ensures near { IfSome result (λ i. unsigned_abs i ≤ 2 ^ 22) }
{
    match (first_right(a, b, 0), first_left(a, b)) {
        (None, None) => None,
        (Some(right), None) => Some(right as i64),
        (None, Some(left)) => Some(-1 - left as i64),
        (Some(right), Some(left)) => Some(nearer(right, left)),
    }
}

/// Returns the place nearer to 0 of two places: the place `right`, and the place -1 - `left`. Returns `right` if both
/// are equally near.
fn nearer(right: usize, left: usize) -> i64
    requires near_right { right ≤ 2 ^ 12 }
    requires near_left { left ≤ 2 ^ 12 }
    ensures left { left + 1 < right → result ≡ negsuc left }
    ensures right { right ≤ left + 1 → result ≡ pos right }
{
    if left + 1 < right {
        -1 - left as i64
    } else {
        right as i64
    }
}

/// Returns whether two Tails have the same image under a rule. The rule and both Tails must have the same number of
/// letters.
pub fn share(rule: &Rule, a: &Tail, b: &Tail) -> bool
    requires first { rule.now.states ≡ a.now.states }
    requires second { rule.now.states ≡ b.now.states }
    ensures { IsTrue result ↔ ShareImage rule.now a.now.config b.now.config }
{
    let lefts = a.left().len() + b.left().len() + usize::from(rule.m()) - 1;
    let rights = a.right().len() + b.right().len();
    let start = -(lefts as i64) - i64::from(rule.o());
    share_run(rule, a, b, start, lefts + longer(a, b) + rights)
}

/// Returns whether the cells of two Tails are equal at all places to the left of some place.
pub fn agree_left(a: &Tail, b: &Tail) -> bool
    ensures { IsTrue result ↔ AgreeLeft a.now.config b.now.config }
{
    first_left(a, b).is_none()
}

/// Returns whether the cells of two Tails are equal at all places to the right of some place.
pub fn agree_right(a: &Tail, b: &Tail) -> bool
    ensures { IsTrue result ↔ AgreeRight a.now.config b.now.config }
{
    first_right(a, b, longer(a, b)).is_none()
}

/// Returns the length of the longer of the two middles.
fn longer(a: &Tail, b: &Tail) -> usize
    ensures longer { result ≡ most_middle a.now.config b.now.config }
    ensures short { result ≤ 1024 }
{
    a.middle().len().max(b.middle().len())
}

/// Returns the first place, starting at `start`, at which two Tails differ, or None if there is no such place. After
/// the longer middle, only looks at as many places as the two right periods have letters together. If the cells are
/// equal there, they are equal at all later places.
fn first_right(a: &Tail, b: &Tail, start: usize) -> Option<usize>
    requires { start ≤ most_middle a.now.config b.now.config }
    ensures none { IfNone result ((i : ℕ)
        → start ≤ i → right_cells a.now.config i ≡ right_cells b.now.config i) }
    ensures first { IfSome result
        (IsFirstDifference (right_cells a.now.config) (right_cells b.now.config) start) }
    ensures apart { IfSome result (λ i.
        most_middle a.now.config b.now.config ≤ i → ¬ AgreeRight a.now.config b.now.config) }
    ensures near { IfSome result (λ i. i ≤ 2 ^ 12) }
{
    for i in start..longer(a, b) + a.right().len() + b.right().len() {
        if a.cell(i as i64) != b.cell(i as i64) {
            return Some(i);
        }
    }
    None
}

/// Returns the least i for which two Tails differ at the place -1 - i, or None if all their cells to the left of place
/// 0 are equal. Only looks at as many places as the two left periods have letters together. If the cells are equal
/// there, they are equal at all places further to the left.
fn first_left(a: &Tail, b: &Tail) -> Option<usize>
    ensures none { IfNone result ((i : ℕ)
        → left_cells a.now.config i ≡ left_cells b.now.config i) }
    ensures first { IfSome result
        (IsFirstDifference (left_cells a.now.config) (left_cells b.now.config) 0) }
    ensures apart { OnSome result (¬ AgreeLeft a.now.config b.now.config) }
    ensures near { IfSome result (λ i. i ≤ 2 ^ 12) }
{
    for i in 0..a.left().len() + b.left().len() {
        if a.cell(-1 - i as i64) != b.cell(-1 - i as i64) {
            return Some(i);
        }
    }
    None
}

/// Returns whether the images of two Tails have equal cells at `count` places, starting at `start`.
fn share_run(rule: &Rule, a: &Tail, b: &Tail, start: i64, count: usize) -> bool
    requires first { rule.now.states ≡ a.now.states }
    requires second { rule.now.states ≡ b.now.states }
    requires near { unsigned_abs start ≤ 2 ^ 16 }
    requires few { count ≤ 2 ^ 16 }
    ensures { IsTrue result ↔ ((d : ℕ) → d < count
        → image_cell rule.now a.now.config (start +ℤ pos d)
        ≡ image_cell rule.now b.now.config (start +ℤ pos d)) }
{
    for d in 0..count {
        let i = start + d as i64;
        if a.image_cell(rule, i) != b.image_cell(rule, i) {
            return false;
        }
    }
    true
}
