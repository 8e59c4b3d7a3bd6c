//! The function `write_images`: the images of all words of one length. The value of a word is the base-k number whose
//! digits are its letters.
ghost use Rattle.std.specs.Prelude.{◌≡◌, ℕ, ◌+◌, ◌*◌, ◌^◌, ◌<◌, ◌≤◌, ◌++◌, All, length, map, slice_range, vec_len, vec_capacity};
ghost use Rattle.inverse_table.specs.MapLimits.{most_map_entries};
ghost use Rattle.inverse_table.specs.ImageValues.{AreImageValues};

use crate::cycles::next_row;
use std::alloc::Global;
use std::mem::{replace, swap};
use word_image::Rule;

/// The greatest number of words whose images are computed.
pub const MOST_IMAGES: usize = 1_048_576;

/// Fills `images` with the value of the image of each word of n + m - 1 letters, in the order of the values of the
/// words. It also uses `other`, and what this list then has means nothing. It needs no memory: `alloc` only makes empty
/// lists.
pub(crate) fn write_images(
    alloc: Global,
    rule: &Rule,
    n: u16,
    images: &mut Vec<u16>,
    other: &mut Vec<u16>,
)
    requires fits { rule.now.states ^ n ≤ most_map_entries }
    requires room { MOST_IMAGES ≤ vec_capacity images.old }
    requires other_room { MOST_IMAGES ≤ vec_capacity other.old }
    ensures images { AreImageValues rule.now n images.new.items }
    ensures room { MOST_IMAGES ≤ vec_capacity images.new }
    ensures other_room { MOST_IMAGES ≤ vec_capacity other.new }
{
    images.clear();
    images.resize(usize::from(rule.nodes()), 0).unwrap();
    for _ in 0..n {
        write_longer(alloc, rule, images, other);
        swap(images, other);
    }
}

/// Fills `values` with the values of the images of all words that are one letter longer. `images` has the values of the
/// images of all words of one length, in the order of these words. In this order the last m - 1 letters of the words
/// repeat, and so do the rows of the table, which have the k labels of one node.
///
/// The function isn't inlined, since otherwise the loop keeps more on the stack. For the same reason the list is taken
/// out of `values` while it is filled.
#[inline(never)]
fn write_longer(alloc: Global, rule: &Rule, images: &[u16], values: &mut Vec<u16>)
    requires fits { All (λ image. image * rule.now.states + rule.now.states ≤ most_map_entries) images.now }
    requires few { length images.now * rule.now.states ≤ MOST_IMAGES }
    requires room { MOST_IMAGES ≤ vec_capacity values.old }
    ensures longer { (n : ℕ) → AreImageValues rule.now n images.now → AreImageValues rule.now (n + 1) values.new.items }
    ensures room { MOST_IMAGES ≤ vec_capacity values.new }
{
    let k = rule.k();
    let table = rule.table();
    let row = usize::from(k);
    let mut list = replace(values, Vec::new(alloc));
    list.clear();
    let mut place = 0;
    for image in images {
        let first = *image * u16::from(k);
        push_all(&mut list, first, row_at(table, place, row));
        place = next_row(place, row, table.len());
    }
    *values = list;
}

/// Returns the `row` letters of the table that begin at `place`.
fn row_at(table: &[u8], place: usize, row: usize) -> &[u8]
    requires { place + row ≤ length table.now }
    ensures { result.now ≡ slice_range table.now place (place + row) }
{
    &table[place..place + row]
}

/// Appends `first` plus each of these labels. If `first` is k times the value of an image, these are the values of the
/// images with one more letter.
fn push_all(values: &mut Vec<u16>, first: u16, labels: &[u8])
    requires fits { All (λ label. first + label < most_map_entries) labels.now }
    requires room { vec_len values.old + length labels.now ≤ vec_capacity values.old }
    ensures items { values.new.items ≡ values.old.items ++ map (λ label. first + label) labels.now }
    ensures room { vec_capacity values.new ≡ vec_capacity values.old }
{
    for label in labels {
        values.push_reserved(first + u16::from(*label));
    }
}
