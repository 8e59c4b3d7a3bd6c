//! Functions that look up the members of a JSON object.
ghost use Rattle.std.specs.Prelude.{◌≡◌, ◌↔◌, Contains, IfSome, IfNone, IsTrue, string_bytes};
ghost use Rattle.std.specs.Option.{option_map};
ghost use Rattle.serde_json.specs.Data.{Data};
ghost use Rattle.serde_json.specs.Find.{get_member};
ghost use Rattle.serde_json.specs.View.{view};
ghost use Rattle.cert_values.specs.CertificateTexts.{HasOnly, HasOnlyBoth, HasNoOther, keys_of};
ghost use Rattle.cert_format.specs.Readings.{members_in};

use cert_values::CertVersion;
use serde_json::Value;

/// The keys that certificates of all versions have.
const KEYS: [&str; 8] = [
    "conserving",
    "injective",
    "left",
    "ranks",
    "right",
    "rule",
    "surjective",
    "version",
];

/// Returns the value of the member with this key, or None if there is no such member.
pub fn member<'a>(value: &'a Value, key: &str) -> Option<&'a Value>
    ensures { option_map (λ v. view v.now) result
        ≡ get_member key.now (members_in (view value.now)) }
{
    value.get(key)
}

/// Returns the value of the member with this key. Returns None if the object doesn't have this member, or has another
/// member too.
pub fn only<'a>(value: &'a Value, key: &str) -> Option<&'a Value>
    ensures some { IfSome result (λ v. HasOnly key.now (view v.now) (view value.now)) }
    ensures none { IfNone result ((d : Data) → ¬ HasOnly key.now d (view value.now)) }
{
    let members = value.as_object()?;
    if members.len() != 1 {
        return None;
    }
    let (name, member) = members.first_key_value()?;
    if !is_named(name, key) {
        return None;
    }
    Some(member)
}

/// Returns the values of the members with these two keys, which are in ascending order. Returns None if the object
/// doesn't have both members, or has another member too.
pub fn only_both<'a>(value: &'a Value, first: &str, second: &str) -> Option<(&'a Value, &'a Value)>
    ensures some { IfSome result (λ p.
        HasOnlyBoth first.now (view p.0.now) second.now (view p.1.now) (view value.now)) }
    ensures none { IfNone result ((d e : Data)
        → ¬ HasOnlyBoth first.now d second.now e (view value.now)) }
{
    let members = value.as_object()?;
    if members.len() != 2 {
        return None;
    }
    let (lesser, member) = members.first_key_value()?;
    let (greater, other) = members.last_key_value()?;
    if is_named(lesser, first) && is_named(greater, second) {
        return Some((member, other));
    }
    None
}

/// Returns whether an object has only keys that a certificate of this version may have.
pub fn has_no_other(version: CertVersion, value: &Value) -> bool
    ensures { IsTrue result ↔ HasNoOther version (members_in (view value.now)) }
{
    let Some(members) = value.as_object() else {
        return true;
    };
    for key in members.keys() {
        if !is_key(version, key) {
            return false;
        }
    }
    true
}

/// Returns whether a name has the same bytes as this key.
fn is_named(name: &String, key: &str) -> bool
    ensures { IsTrue result ↔ (string_bytes name.now ≡ key.now) }
{
    name.as_str() == key
}

/// Returns whether a certificate of this version may have this name as a key.
fn is_key(version: CertVersion, name: &String) -> bool
    ensures { IsTrue result ↔ Contains (keys_of version) (string_bytes name.now) }
{
    KEYS.contains(&name.as_str()) || version.names_weights() && is_named(name, "weights")
}
