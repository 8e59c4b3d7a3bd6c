//! The names of the faults of a text.
ghost use Rattle.std.specs.Prelude.{◌≡◌, IfOk, string_bytes};
ghost use Rattle.rule_text.specs.FaultTexts as texts;
ghost use Rattle.rule_text.specs.FaultTexts.{fault_text};

use crate::text_fault::TextFault;
use std::alloc::{AllocError, Global};

/// Returns the name of a fault, for example `states`. If the fault has a place, the result is its name, a blank and
/// the place, for example `form 3`. The only error is lack of memory.
pub fn fault_kind(alloc: Global, fault: TextFault) -> Result<String, AllocError>
    ensures { IfOk result (λ text. string_bytes text ≡ fault_text fault) }
{
    let name = fault_name(fault);
    match fault_place(fault) {
        None => String::from_str(alloc, name),
        Some(place) => format!(in alloc; "{name} {place}"),
    }
}

/// Returns the name of a fault.
pub fn fault_name(fault: TextFault) -> &'static str
    ensures { result.now ≡ texts.fault_name fault }
{
    match fault {
        TextFault::Form(_) => "form",
        TextFault::States => "states",
        TextFault::Width => "width",
        TextFault::Nodes => "nodes",
        TextFault::Offset => "offset",
        TextFault::Kind => "kind",
        TextFault::Length => "length",
        TextFault::Letter(_) => "letter",
        TextFault::Number => "number",
    }
}

/// Returns the place of a fault in the text. Only `Form` and `Letter` have one.
pub fn fault_place(fault: TextFault) -> Option<usize>
    ensures { result ≡ texts.fault_place fault }
{
    match fault {
        TextFault::Form(place) | TextFault::Letter(place) => Some(place),
        _ => None,
    }
}
