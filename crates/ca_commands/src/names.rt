//! The names of the commands, and the words for them.
ghost use Rattle.std.specs.Prelude.{◌≡◌, MatchOption};
ghost use Rattle.ca_commands.specs.Commands.{word_of};

/// The name of a command. In the comments on the names, R is the text of a rule.
#[derive(Clone, Copy, Debug)]
pub enum Name {
    /// `decide R`, `decide R WEIGHTS`: the report of the rule, which has its verdicts and the evidence for them.
    Decide,
    /// `orphan R`: whether the rule is surjective, and its least orphan if it isn't.
    Orphan,
    /// `number R`: the Wolfram number of the rule.
    Number,
    /// `certify R`, `certify R WEIGHTS`: the certificate of the rule, in version 2.
    Certify,
    /// `brief R`, `brief R WEIGHTS`: the certificate of the rule, in version 3.
    Brief,
    /// `reflect R`: the mirrored rule.
    Reflect,
    /// `trim R`: the rule without the cells at both ends of its window that it ignores.
    Trim,
    /// `shift R N`: the rule that reads N cells further to the right.
    Shift,
    /// `widen R M`: the same map as a rule of width M.
    Widen,
    /// `permute R DIGITS`: the rule with new names for its letters.
    Permute,
    /// `compose R R`: the composition of two rules, the second rule after the first.
    Compose,
    /// `least R`: the rule with the least Wolfram number in the class of the rule.
    Least,
    /// `lift R`: the second-order lift of the rule, whose letters are pairs of letters.
    Lift,
    /// `unlift R`: the rule that undoes the second-order lift.
    Unlift,
    /// `inverse R`: the inverse map of the rule, which computes the cells of a configuration from its image.
    Inverse,
    /// `language R`: the least automaton of the words that have a preimage.
    Language,
    /// `same R R`: whether the same words have a preimage under both rules.
    Same,
    /// `erase R`: the least erasable pair of the rule. These are two words that can replace each other in any
    /// configuration.
    Erase,
    /// `preimage R TAIL`: a configuration that the rule maps to the given configuration.
    Preimage,
    /// `survey K M FROM COUNT`: how many of COUNT rules with consecutive numbers, starting at FROM, have each
    /// property.
    Survey,
    /// `sample K M SEED COUNT`: how many of the first COUNT rules that a seed determines have each property.
    Sample,
    /// `classes K M FROM COUNT`: the same counts as `survey`, and the number of classes of these rules.
    Classes,
    /// `check`: whether the judge accepts the certificate in the input.
    Check,
}

impl Name {
    /// Returns the name whose word this is, or None if no command has this word.
    pub fn of_word(word: &str) -> Option<Name>
        ensures { MatchOption result
            ((n : Name) → ¬ (word_of n ≡ word.now))
            (λ n. word_of n ≡ word.now) }
    {
        match word {
            "decide" => Some(Name::Decide),
            "orphan" => Some(Name::Orphan),
            "number" => Some(Name::Number),
            "certify" => Some(Name::Certify),
            "brief" => Some(Name::Brief),
            "reflect" => Some(Name::Reflect),
            "trim" => Some(Name::Trim),
            "shift" => Some(Name::Shift),
            "widen" => Some(Name::Widen),
            "permute" => Some(Name::Permute),
            "compose" => Some(Name::Compose),
            "least" => Some(Name::Least),
            "lift" => Some(Name::Lift),
            "unlift" => Some(Name::Unlift),
            "inverse" => Some(Name::Inverse),
            "language" => Some(Name::Language),
            "same" => Some(Name::Same),
            "erase" => Some(Name::Erase),
            "preimage" => Some(Name::Preimage),
            "survey" => Some(Name::Survey),
            "sample" => Some(Name::Sample),
            "classes" => Some(Name::Classes),
            "check" => Some(Name::Check),
            _ => None,
        }
    }
}
