//! The least evidence for one verdict.
ghost use Rattle.std.specs.Prelude.{◌≡◌};
ghost use Rattle.word_image.specs.LocalRules.{LocalRule};
ghost use Rattle.certificate_laws.specs.LeastEvidence.{IsOrphanPart, IsInjectivePart};
ghost use Rattle.rule_verdicts.specs.Parts.{IsWindowOrTwins};
ghost use Rattle.rule_verdicts.specs.Reports.{injective_of};

use crate::report::Injectivity;
use crate::report_room::ReportRoom;
use debruijn::Graph;
use eden_law::is_surjective;
use inverse_window::{WindowAt, least_twins, window};
use least_walk::Walker;
use orphan_search::Search;
use pair_graph::Pairs;
use pair_rank::Ranks;
use short_words::{LentWord, ShortPair};
use word_image::Rule;

/// Returns the least orphan, at most 65,535 letters, or None if the rule is surjective. The room lends the orphan.
pub fn least_orphan<'r>(room: &'r mut ReportRoom, rule: &Rule) -> Option<LentWord<'r>>
    ensures { IsOrphanPart rule.now result }
{
    first_orphan(&mut room.search, &Graph::of(rule))
}

/// Returns the least orphan of the rule with this graph, or None if the rule is surjective.
pub(crate) fn first_orphan<'r>(search: &'r mut Search, graph: &Graph) -> Option<LentWord<'r>>
    ensures { IsOrphanPart graph.now result }
{
    if is_surjective(graph) {
        return None;
    }
    search.run_over(graph);
    Some(LentWord::of(search.word()))
}

/// Returns the least determined window if the rule is injective. If it isn't, returns its least twins as the error. A
/// window has at most 240 letters of the image, and twins have at most 512 letters. The room has memory for the search.
pub fn window_or_twins(room: &mut ReportRoom, rule: &Rule) -> Result<WindowAt, ShortPair>
    ensures { IsWindowOrTwins rule.now result }
{
    let pairs = Pairs::of(rule);
    let ranks = Ranks::from_pairs(&pairs);
    window_or_twins_over(&pairs, &ranks, &mut room.walker)
}

/// Returns the least determined window if the rule of these pairs of nodes is injective. If it isn't, returns its least
/// twins as the error. `ranks` are the ranks of the pairs.
pub(crate) fn window_or_twins_over(
    pairs: &Pairs,
    ranks: &Ranks,
    walker: &mut Walker,
) -> Result<WindowAt, ShortPair>
    requires { ranks.now ≡ pairs.now }
    ensures { IsWindowOrTwins pairs.now result }
{
    if let Some(at) = window(pairs.rule(), ranks) {
        return Ok(at);
    }
    match least_twins(pairs, walker) {
        Some(pair) => Err(pair),
        None => unreachable!(),
    }
}

/// Turns a window, or twins as the error, into a part of a report, which lends the twins from `twins`.
pub(crate) fn injectivity_of<'r>(
    twins: &'r mut ShortPair,
    found: Result<WindowAt, ShortPair>,
) -> Injectivity<'r>
    ensures { (r : LocalRule) → IsWindowOrTwins r found → IsInjectivePart r (injective_of result) }
{
    match found {
        Ok(at) => Injectivity::Window { n: at.n, c: at.c },
        Err(pair) => {
            *twins = pair;
            Injectivity::Twins(twins)
        }
    }
}
