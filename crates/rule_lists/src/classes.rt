//! The classes of windows. A search fills the table of a rule window by window, and windows of lesser classes come
//! first.
ghost use Rattle.std.specs.Prelude.{◌≡◌, ◌≤◌, ◌<◌, ◌+◌, ◌*◌, ◌-◌, ◌/◌, ◌%◌, ◌^◌, ◌==◌, ◌↔◌, ℕ, IsTrue, slice_index};
ghost use Rattle.word_image.specs.LocalRules.{IsRule, most_windows};
ghost use Rattle.rule_lists.specs.Orders.{class_of, ring_class, ring_number, turned, has_period, weight_class};

use crate::properties::Property;
use word_image::{MOST_ENTRIES, Rule};

/// Returns the class of each window, at the window's value. Zeros follow the classes of all windows.
pub(crate) fn classes_of(property: Property, shape: &Rule) -> [u32; MOST_ENTRIES]
    ensures { (w : ℕ) → w < shape.now.states ^ shape.now.width → slice_index result w ≡ class_of property shape.now.states shape.now.width w }
{
    let mut classes = [0; MOST_ENTRIES];
    for window in 0..shape.size() {
        classes[usize::from(window)] = class_for(property, shape, window);
    }
    classes
}

/// Returns the class of a window for this property: its ring class for injective and conserving rules, and its weight
/// class for all others.
fn class_for(property: Property, shape: &Rule, window: u16) -> u32
    ensures { result ≡ class_of property shape.now.states shape.now.width window }
{
    match property {
        Property::Injective | Property::Conserving => ring_class(shape, window),
        _ => weight_class(shape, window),
    }
}

/// Returns the ring class of a window: 256 times the length of the shortest ring around which the window can be read,
/// plus the least value among the rotations of this ring.
fn ring_class(shape: &Rule, window: u16) -> u32
    ensures { result ≡ ring_class shape.now.states shape.now.width window }
{
    for length in 1..shape.m() {
        if has_period(shape, window, length) {
            return ring_number(shape, window, length);
        }
    }
    ring_number(shape, window, shape.m())
}

/// Returns 256 times `length`, plus the least value of the ring that has the first `length` letters of the window, read
/// from any of its letters.
fn ring_number(shape: &Rule, window: u16, length: u8) -> u32
    requires { length ≤ shape.now.width }
    ensures { result ≡ ring_number shape.now.states shape.now.width window length }
{
    let ring = u32::from(window) / power(shape, shape.m() - length);
    let mut least = ring;
    for from in 0..length {
        least = least.min(turned(shape, ring, length, from));
    }
    u32::from(length) * 256 + least
}

/// Returns the value of the word that you get if you read a ring once around from the letter at place `from`. `ring` is
/// the value of the ring if it is read from place 0. The ring has `length` letters.
fn turned(shape: &Rule, ring: u32, length: u8, from: u8) -> u32
    requires small { ring < 2 ^ 16 }
    requires within { length ≤ shape.now.width }
    requires from { from < length }
    ensures { result ≡ turned shape.now.states length ring from }
{
    let behind = power(shape, length - from);
    ring % behind * power(shape, from) + ring / behind
}

/// Returns whether each letter of the window, from place `length` on, equals the letter `length` places before it.
fn has_period(shape: &Rule, window: u16, length: u8) -> bool
    requires { length ≤ shape.now.width }
    ensures { result ≡ has_period shape.now.states shape.now.width window length }
{
    let first = u32::from(window) / power(shape, length);
    let last = u32::from(window) % power(shape, shape.m() - length);
    first == last
}

/// Returns the weight class of a window: 8 times its greatest letter, plus the number of its letters other than 0.
fn weight_class(shape: &Rule, window: u16) -> u32
    ensures { result ≡ weight_class shape.now.states shape.now.width window }
{
    let mut greatest = 0;
    let mut some = 0;
    for behind in 0..shape.m() {
        let letter = u32::from(window) / power(shape, behind) % u32::from(shape.k());
        greatest = greatest.max(letter);
        some += letter.min(1);
    }
    greatest * 8 + some
}

/// Returns the number of words of this length: k to the power of `length`.
fn power(shape: &Rule, length: u8) -> u32
    requires { length ≤ shape.now.width }
    ensures power { result ≡ shape.now.states ^ length }
    ensures some { 0 < result }
    ensures few { result ≤ most_windows }
    ensures rule { IsRule shape.now }
{
    u32::from(shape.k()).pow(u32::from(length))
}
