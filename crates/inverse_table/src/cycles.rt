//! Functions that count up to a number and then start again at 0, like the last letters of words in their order.
ghost use Rattle.std.specs.Prelude.{◌≡◌, ℕ, ◌+◌, ◌*◌, ◌%◌, ◌<◌, ◌≤◌};

/// Returns i + 1, or 0 if i is the last number below `count`.
pub(crate) fn next_number(i: usize, count: usize) -> usize
    requires { i < count }
    ensures next { (n : ℕ) → i ≡ n % count → result ≡ (n + 1) % count }
    ensures below { result < count }
{
    if i + 1 == count { 0 } else { i + 1 }
}

/// Returns the place at which the next row of a list begins, or 0 after the last row. The list has `count` numbers, in
/// rows of `row` numbers. The present row begins at `place`.
pub(crate) fn next_row(place: usize, row: usize, count: usize) -> usize
    requires some { 0 < row }
    requires inside { place + row ≤ count }
    ensures next { (rows j : ℕ) → count ≡ rows * row → place ≡ j % rows * row → result ≡ (j + 1) % rows * row }
{
    if place + row == count {
        return 0;
    }
    place + row
}
