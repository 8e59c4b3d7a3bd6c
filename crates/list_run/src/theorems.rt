//! A law about the printed rules of a list.
ghost use Rattle.std.specs.Prelude.{◌≡◌, ◌^◌, List, ℕ};
ghost use Rattle.word_image.specs.LocalRules.{LocalRule, IsRule};
ghost use Rattle.rule_lists.specs.Listed.{IsListed};
ghost use Rattle.rule_lists.specs.Properties.{Has};
ghost use Rattle.rule_lists.specs.Tables.{HasLetters};
ghost use Rattle.rule_lists.specs.declared.properties.Property.{Property};
ghost use Rattle.list_run.specs.Lines.{with_table};

/// Law: a listed rule has offset 0, and its line has the offset of the beginning. The rule in the line has the property
/// too. Each rule that has the offset of the beginning, the property and the given letters has a line.
pub fn printed_rules_have_the_property()
    ensures printed { (property : Property) (shape r : LocalRule) (letters : List ℕ) → IsRule shape → IsListed property shape.states shape.width letters r
        → IsRule (with_table shape r.table) × Has property (with_table shape r.table) }
    ensures all { (property : Property) (shape q : LocalRule) (letters : List ℕ) → IsRule shape → IsRule q → q.states ≡ shape.states → q.width ≡ shape.width → q.offset ≡ shape.offset
        → Has property q → HasLetters shape.states (shape.states ^ shape.width) letters q.table
        → (r : LocalRule) × IsListed property shape.states shape.width letters r × (q ≡ with_table shape r.table) }
{}
