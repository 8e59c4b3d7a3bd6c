//! The JSON of an automaton. Its states are called classes, and it reads words of letters below k.
ghost use Rattle.std.specs.Prelude.{◌≡◌, ◌<◌, IfOk, map};
ghost use Rattle.std.specs.List.{range_with_len};
ghost use Rattle.serde_json.specs.View.{view};
ghost use Rattle.cert_values.specs.WrittenTexts.{array_from};
ghost use Rattle.ca_questions.specs.Values.{automaton_of};
ghost use Rattle.ca_questions.specs.Writable.{HasRows};
ghost use Rattle.ca_json.specs.Findings.{automaton_json, row_json};
ghost use Rattle.ca_json.specs.Values.{numbers_json};

use ca_questions::Automaton;
use serde_json::{Value, json};
use std::alloc::{AllocError, Global};

/// Returns the object of an automaton: its number k of letters, its number of classes, the class of the orphans, and a
/// row for each class.
pub fn automaton_value(alloc: Global, automaton: &Automaton) -> Result<Value, AllocError>
    requires { HasRows (automaton_of automaton.now) }
    ensures { IfOk result (λ v. view v ≡ automaton_json (automaton_of automaton.now)) }
{
    let next = rows_value(alloc, automaton)?;
    json!(in alloc; {
        "classes": automaton.classes,
        "dead": automaton.dead,
        "next": next,
        "states": automaton.states,
    })
}

/// Returns the array of the rows of all classes.
fn rows_value(alloc: Global, automaton: &Automaton) -> Result<Value, AllocError>
    requires { HasRows (automaton_of automaton.now) }
    ensures { IfOk result (λ v. view v
        ≡ array_from (map (row_json (automaton_of automaton.now)) (range_with_len 0 automaton.now.classes))) }
{
    let mut rows = Vec::new(alloc);
    for class in 0..automaton.classes {
        rows.push(row_value(alloc, automaton, class)?)?;
    }
    Ok(Value::from(rows))
}

/// Returns the row of a class: the array with its next class for each letter.
fn row_value(alloc: Global, automaton: &Automaton, class: u32) -> Result<Value, AllocError>
    requires rows { HasRows (automaton_of automaton.now) }
    requires class { class < automaton.now.classes }
    ensures { IfOk result (λ v. view v ≡ row_json (automaton_of automaton.now) class) }
{
    let k = usize::from(automaton.states);
    let first = class as usize * k;
    classes_value(alloc, &automaton.next[first..first + k])
}

/// Returns the numbers of classes as a JSON array.
fn classes_value(alloc: Global, classes: &[u16]) -> Result<Value, AllocError>
    ensures { IfOk result (λ v. view v ≡ numbers_json classes.now) }
{
    let classes = classes.iter();
    let values: Vec<Value> = classes.map(|class| Value::from(*class)).collect(alloc)?;
    Ok(Value::from(values))
}
