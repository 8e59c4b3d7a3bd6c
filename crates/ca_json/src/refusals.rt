//! The JSON of a refusal: the reason why a certificate isn't accepted.
ghost use Rattle.std.specs.Prelude.{◌≡◌, IfOk, OnOk};
ghost use Rattle.std.specs.Option.{option_map};
ghost use Rattle.serde_json.specs.View.{view, members_view};
ghost use Rattle.cert_conditions.specs.RefusalParts.{parts_of};
ghost use Rattle.ca_json.specs.Causes as causes;
ghost use Rattle.ca_json.specs.Causes.{parts_json, places_json};

use cert_conditions::{Refusal, RefusalNumbers, RefusalParts};
use serde_json::{Map, Value, json, put};
use std::alloc::{AllocError, Global};

/// Returns the object with the words and the numbers of a refusal. If the refusal is lack of memory, returns this as
/// the error.
pub fn refusal_value(alloc: Global, refusal: Refusal) -> Result<Value, AllocError>
    ensures { IfOk result (λ v. view v ≡ parts_json (parts_of refusal)) }
{
    let parts = RefusalParts::of(refusal)?;
    let at = places_value(alloc, parts.numbers)?;
    let mut members = Map::new(alloc);
    put_named(alloc, &mut members, "status", Some("refused"))?;
    put_named(alloc, &mut members, "side", parts.side)?;
    put_named(alloc, &mut members, "key", parts.key)?;
    put_named(alloc, &mut members, "fault", parts.fault)?;
    put_named(alloc, &mut members, "cause", Some(parts.cause))?;
    put_named(alloc, &mut members, "because", parts.because)?;
    put(&mut members, alloc, "at", at)?;
    Ok(Value::from(members))
}

/// Adds a member with this key and this word to an object. If there is no word, it adds nothing.
fn put_named(
    alloc: Global,
    members: &mut Map<String, Value>,
    key: &str,
    word: Option<&'static str>,
) -> Result<(), AllocError>
    ensures { OnOk result (members_view members.new.entries ≡ causes.put_named key.now (option_map (λ w. w.now) word.entry) (members_view members.old.entries)) }
{
    let Some(word) = word else {
        return Ok(());
    };
    let word = Value::from(String::from_str(alloc, word)?);
    put(members, alloc, key, word)?;
    Ok(())
}

/// Returns the numbers of a refusal as an array.
fn places_value(alloc: Global, numbers: RefusalNumbers) -> Result<Value, AllocError>
    ensures { IfOk result (λ v. view v ≡ places_json numbers) }
{
    match numbers {
        RefusalNumbers::None => json!(in alloc; []),
        RefusalNumbers::One(a) => json!(in alloc; [a]),
        RefusalNumbers::Two(a, b) => json!(in alloc; [a, b]),
        RefusalNumbers::Three(a, b, c) => json!(in alloc; [a, b, c]),
    }
}
