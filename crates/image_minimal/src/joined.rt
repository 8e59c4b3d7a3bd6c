//! Numbers in disjoint classes, and the join of two classes (union-find, Galler and Fischer 1964). The parent of a number
//! is a lesser number of its class, or the number itself if it is the root of its class. The classes are stored as the
//! list of the parents of the numbers.

ghost use Rattle.std.specs.Prelude.{◌≡◌, ◌<◌, ◌≤◌, length, slice_index, vec_capacity};
ghost use Rattle.std.specs.List.{range_with_len};
ghost use Rattle.image_minimal.specs.Joins.{IsFalling, IsOnWay, IsJoin};

/// The greatest number of numbers: the sets of nodes of two rules.
pub const MOST_NUMBERS: usize = 131_072;

/// Makes a class for each number below `count`, which has only this number. The list of parents has capacity for them.
pub fn write_classes(parents: &mut Vec<u32>, count: u32)
    requires { count ≤ vec_capacity parents.old }
    ensures numbers { parents.new.items ≡ range_with_len 0 count }
    ensures capacity { vec_capacity parents.new ≡ vec_capacity parents.old }
{
    parents.clear();
    for number in 0..count {
        parents.push_reserved(number);
    }
}

/// Joins the classes of two numbers, and returns whether the classes were different.
pub fn join(parents: &mut [u32], x: u32, y: u32) -> bool
    requires falling { IsFalling parents.old }
    requires first { x < length parents.old }
    requires second { y < length parents.old }
    ensures join { IsJoin parents.old parents.new x y result }
    ensures falling { IsFalling parents.new }
{
    let first = root(parents, x);
    let second = root(parents, y);
    if first == second {
        return false;
    }
    parents[first.max(second) as usize] = first.min(second);
    true
}

/// Returns the root of the class of a number. On the way to the root, gives every second number its parent's parent as
/// parent, so that later calls are faster.
fn root(parents: &mut [u32], number: u32) -> u32
    requires number { number < length parents.old }
    requires falling { IsFalling parents.old }
    ensures root { slice_index parents.new result ≡ result }
    ensures way { IsOnWay parents.old parents.new number result }
{
    let mut at = number;
    while parents[at as usize] != at {
        let above = parents[parents[at as usize] as usize];
        parents[at as usize] = above;
        at = above;
    }
    at
}
