//! Functions that read arrays of items. The trait `Item` is for types whose values can be items of a JSON array.
ghost use Rattle.std.specs.Prelude.{◌≡◌, ◌≢◌, List, length, IfOk, IfErr, IfSome, IfNone};
ghost use Rattle.serde_json.specs.Data.{Data, array, item, no_items};
ghost use Rattle.serde_json.specs.View.{view};
ghost use Rattle.cert_values.specs.CertificateTexts.{IsArrayOf};
ghost use Rattle.cert_format.specs.Readings.{IsByte, IsShort, IsRankValue, IsFlow};

use crate::misread::Misread;
use serde_json::Value;
use std::alloc::Global;

/// A type whose values can be items of a JSON array.
pub trait Item: Sized {
    ghost is_item: { Data → Self → Type 0 };

    /// Reads an item, or returns None if the value isn't an item of this type.
    fn read(value: &Value) -> Option<Self>
        ensures some { IfSome result (is_item (view value.now)) }
        ensures none { IfNone result ((x : Self) → ¬ is_item (view value.now) x) };
}

impl Item for u8 {
    ghost is_item = { IsByte };

    fn read(value: &Value) -> Option<u8> {
        match value.as_u64() {
            Some(number) if number <= 255 => Some(number as u8),
            _ => None,
        }
    }
}

impl Item for u16 {
    ghost is_item = { IsShort };

    fn read(value: &Value) -> Option<u16> {
        match value.as_u64() {
            Some(number) if number <= 65_535 => Some(number as u16),
            _ => None,
        }
    }
}

impl Item for Option<u16> {
    ghost is_item = { IsRankValue };

    fn read(value: &Value) -> Option<Option<u16>> {
        if value.is_null() {
            return Some(None);
        }
        match value.as_u64() {
            Some(number) if number <= 65_535 => Some(Some(number as u16)),
            _ => None,
        }
    }
}

impl Item for i32 {
    ghost is_item = { IsFlow };

    fn read(value: &Value) -> Option<i32> {
        match value.as_i64() {
            Some(number) if -1_000_000 <= number && number <= 1_000_000 => Some(number as i32),
            _ => None,
        }
    }
}

/// Reads the items of an array, in their order. Returns the error `Shape` if the value isn't an array of such items.
pub fn array<T: Item + Drop>(alloc: Global, value: &Value) -> Result<Vec<T>, Misread>
    ensures items { IfOk result (λ v. IsArrayOf T.is_item (view value.now) v.items) }
    ensures none { IfErr result (λ e. e ≡ Misread.Shape
        → (xs : List T) → ¬ IsArrayOf T.is_item (view value.now) xs) }
{
    let Some(values) = value.as_array() else {
        return Err(Misread::Shape);
    };
    let mut items = Vec::with_capacity(alloc, values.len())?;
    for entry in values {
        let Some(item) = T::read(entry) else {
            return Err(Misread::Shape);
        };
        items.push(item)?;
    }
    Ok(items)
}

/// Reads the items of an array with `count` items. Returns the error `Shape` if the value isn't an array of `count`
/// such items.
pub fn array_of<T: Item + Drop>(
    alloc: Global,
    count: usize,
    value: &Value,
) -> Result<Vec<T>, Misread>
    ensures items { IfOk result (λ v. IsArrayOf T.is_item (view value.now) v.items) }
    ensures count { IfOk result (λ v. length v.items ≡ count) }
    ensures none { IfErr result (λ e. e ≡ Misread.Shape
        → (xs : List T) → length xs ≡ count → ¬ IsArrayOf T.is_item (view value.now) xs) }
{
    let items: Vec<T> = array(alloc, value)?;
    if items.len() != count {
        return Err(Misread::Shape);
    }
    Ok(items)
}

/// Returns the two items of an array of length 2, or None if the value isn't such an array.
pub fn pair(value: &Value) -> Option<(&Value, &Value)>
    ensures some { IfSome result (λ p. view value.now
        ≡ array (item (view p.0.now) (item (view p.1.now) no_items))) }
    ensures none { IfNone result ((d e : Data)
        → view value.now ≢ array (item d (item e no_items))) }
{
    let items = value.as_array()?;
    if items.len() != 2 {
        return None;
    }
    Some((&items[0], &items[1]))
}
