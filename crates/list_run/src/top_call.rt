//! The function `run`, which writes the list of rules that the words of the command line ask for. Its words are a
//! property and the beginning of a table text.
ghost use Rattle.std.specs.Prelude.{◌≡◌, ◌≢◌, ◌⊎◌, ◌∷◌, [], ℕ, ◌<◌, List, Err, length, take, map, is_some, string_bytes, IfOk, MatchOption};
ghost use Rattle.std.specs.Io.KnownBytes.{Appends};
ghost use Rattle.ca_io.specs.Faults.{Rose};
ghost use Rattle.rule_lists.specs.declared.properties.Property.{Property};
ghost use Rattle.list_run.specs.Statuses.{IsAnswered};
ghost use Rattle.list_run.specs.Answers.{IsAnswer, IsBegun, IsListing, name_of};

use crate::cut::Cut;
use crate::lines::fault_line;
use crate::listing::write_list;
use crate::status::Status;
use ca_io::{Sink, write_all};
use rule_lists::Property;
use rule_text::parse_beginning;
use std::alloc::{AllocError, Global};

/// Writes the list that the words ask for: a property, and the beginning of a table text. `words` are the words of
/// the command line without the program's name.
pub fn run<T: Sink>(alloc: Global, words: &[String], sink: &mut T) -> Status
    // If the status is neither WriteFault nor Memory, it is right for the words, and the sink took a whole output
    // that is right for the words and the status. The clause says which bytes it took if the sink tells its bytes.
    ensures answer { IsAnswered result → (out : List ℕ) × IsAnswer (map string_bytes words.now) result out
        × Appends (T.taken sink.old) (T.taken sink.new) out }

    // After WriteFault the sink has counted a failed write. It took a part of a right output, or a part of the lines
    // of the first rules of the list, but not all of them.
    ensures write_counted { result ≡ Status.WriteFault → Rose (T.faults sink.old) (T.faults sink.new) }
    ensures write_part { result ≡ Status.WriteFault → (out : List ℕ) × (n : ℕ)
        × IsBegun (map string_bytes words.now) out × (n < length out)
        × Appends (T.taken sink.old) (T.taken sink.new) (take n out) }

    // After Memory the sink took nothing, or it took the lines of the first rules of the list.
    ensures memory { result ≡ Status.Memory → (sink.new ≡ sink.old) ⊎ ((out : List ℕ)
        × IsBegun (map string_bytes words.now) out × Appends (T.taken sink.old) (T.taken sink.new) out) }

    ensures sink_faults { result ≢ Status.WriteFault → T.faults sink.new ≡ T.faults sink.old }
    ensures sink_telling { is_some (T.taken sink.new) ≡ is_some (T.taken sink.old) }
{
    match answer(alloc, words, sink) {
        Ok(status) => status,
        Err(Cut::Failed) => Status::WriteFault,
        Err(Cut::Memory(_)) => Status::Memory,
    }
}

/// Writes the right output for the words, and returns the status that belongs to it.
fn answer<T: Sink>(alloc: Global, words: &[String], sink: &mut T) -> Result<Status, Cut>
    ensures answered { IfOk result IsAnswered }
    ensures whole { IfOk result (λ status. (out : List ℕ) × IsAnswer (map string_bytes words.now) status out
        × Appends (T.taken sink.old) (T.taken sink.new) out) }
    ensures failed { result ≡ Err Cut.Failed → (out : List ℕ) × (n : ℕ)
        × IsBegun (map string_bytes words.now) out × (n < length out)
        × Appends (T.taken sink.old) (T.taken sink.new) (take n out) }
    ensures memory { (fault : AllocError) → result ≡ Err (Cut.Memory fault) → (sink.new ≡ sink.old) ⊎ ((out : List ℕ)
        × IsBegun (map string_bytes words.now) out × Appends (T.taken sink.old) (T.taken sink.new) out) }
    ensures rose { result ≡ Err Cut.Failed → Rose (T.faults sink.old) (T.faults sink.new) }
    ensures kept { result ≢ Err Cut.Failed → T.faults sink.new ≡ T.faults sink.old }
    ensures telling { is_some (T.taken sink.new) ≡ is_some (T.taken sink.old) }
{
    let Some((property, text)) = asked(words) else {
        write_all(sink, b"usage error\n")?;
        return Ok(Status::Usage);
    };
    match parse_beginning(text) {
        Ok(beginning) => {
            match write_list(alloc, property, &beginning, sink) {
                Ok(()) => Ok(Status::Done),
                Err(cut) => Err(cut),
            }
        }
        Err(fault) => {
            let line = fault_line(alloc, fault)?;
            write_all(sink, line.as_bytes())?;
            Ok(Status::RuleFault)
        }
    }
}

/// Returns the property and the text if the words are the name of a property and a text. Returns None otherwise.
fn asked(words: &[String]) -> Option<(Property, &[u8])>
    ensures { MatchOption result
        ((property : Property) (text : List ℕ) → ¬ IsListing (map string_bytes words.now) property text)
        (λ asked. IsListing (map string_bytes words.now) asked.0 asked.1.now) }
{
    match words {
        [name, text] => Some((property_of(name)?, text.as_bytes())),
        _ => None,
    }
}

/// Returns the property with this name, or None if no property has this name.
fn property_of(name: &str) -> Option<Property>
    ensures { MatchOption result
        ((property : Property) → ¬ (name_of property ≡ name.now))
        (λ property. name_of property ≡ name.now) }
{
    match name {
        "surjective" => Some(Property::Surjective),
        "injective" => Some(Property::Injective),
        "right" => Some(Property::RightClosing),
        "left" => Some(Property::LeftClosing),
        "open" => Some(Property::Open),
        "conserving" => Some(Property::Conserving),
        _ => None,
    }
}
