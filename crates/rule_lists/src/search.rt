//! The search for the next listed rule.
//!
//! A search fills the table of a rule window by window, in a given order. The letters so far are called known. Some
//! letters are fixed in advance. A rule is listed if it has the shape, the offset 0, the property and all fixed
//! letters. Its rank is the number whose digits are its letters in the order of the windows.
ghost use Rattle.std.specs.Prelude.{◌≡◌, ◌^◌, ◌<◌, ◌≤◌, ℕ, None, Some, IfSome, IsNone, slice_index, pos};
ghost use Rattle.word_image.specs.LocalRules.{IsShape, IsRule};
ghost use Rattle.rule_lists.specs.Tables.{IsTable, IsPast};
ghost use Rattle.rule_lists.specs.Listed.{IsFilled, IsOn};
ghost use Rattle.rule_lists.specs.Searches.{AreEntries, IsStartRuledOut, HasShape, IsFirstListed, IsNextListed, IsOrdered, size_of};

use crate::asked::Asked;
use crate::cuts::rules_out_start;
use crate::hints::Hints;
use crate::properties::has;
use crate::tables::{Table, advance, has_letters};
use word_image::{MOST_ENTRIES, Rule};

/// An iterator that returns the listed rules one after another, by ascending rank. Needs no memory.
///
/// A search fills a table letter by letter, in the order of the windows. If the letters so far rule out the property,
/// it doesn't fill the rest and continues with the next letters. Hints only save time. A wrong hint loses no rule,
/// since the search checks a hint before it skips tables because of it. In the worst case it fills all `k^(k^m)` tables.
#[derive(Drop)]
pub struct ListedRules<'a> {
    /// The question that the search answers.
    asked: Asked<'a>,
    /// The hints from the letters of the last table. A hint shows that letters rule out the property.
    hints: Hints,
    /// The rule after which the search continues, or None if it begins at the least rank.
    last: Option<Rule>,
}

impl<'a> ListedRules<'a> {
    ghost use Rattle.rule_lists.specs.Searches.{IsBehind};

    /// Makes a search whose first rule is the listed rule of least rank.
    pub fn new(asked: Asked<'a>) -> ListedRules<'a>
        requires { IsOrdered asked }
        ensures { IsBehind asked.entry None result }
    {
        let hints = Hints::of(&asked);
        ListedRules {
            asked,
            hints,
            last: None,
        }
    }

    /// Makes a search that begins after this rule of the shape, which need not have the property. Every rule that the
    /// search returns has a greater rank.
    pub fn resume_after(asked: Asked<'a>, rule: &Rule) -> ListedRules<'a>
        requires order { IsOrdered asked }
        requires shape { HasShape asked rule.now }
        ensures { IsBehind asked.entry (Some rule.now) result }
    {
        let hints = Hints::of(&asked);
        ListedRules {
            asked,
            hints,
            last: Some(*rule),
        }
    }
}

impl<'a> Iterator for ListedRules<'a> {
    ghost use Rattle.std.specs.Iterator.{at_most};
    ghost use Rattle.rule_lists.specs.Searches.{CanGoOn, GivesNext, ranks_left};

    type Item = Rule;

    ghost can_next = { CanGoOn };

    ghost next_gives = { GivesNext };

    ghost remaining = { λ s. at_most (ranks_left s.asked s.last) };

    fn next(&mut self) -> Option<Rule> {
        let Some(rule) = next_listed(&self.asked, &self.last, &mut self.hints) else {
            return None;
        };
        self.last = Some(rule);
        Some(rule)
    }
}

/// Returns the listed rule of least rank among those that come after the rule `last`, or among all of them if `last` is
/// None. Returns None if there is no such rule.
fn next_listed(asked: &Asked, last: &Option<Rule>, hints: &mut Hints) -> Option<Rule>
    requires order { IsOrdered asked.now }
    requires shape { IfSome last.now (HasShape asked.now) }
    ensures { IsNextListed asked.now last.now result }
{
    match last {
        None => first_rule(asked, hints),
        Some(rule) => rule_after(asked, rule, hints),
    }
}

/// Returns the listed rule of least rank, or None if no rule is listed.
fn first_rule(asked: &Asked, hints: &mut Hints) -> Option<Rule>
    requires { IsOrdered asked.now }
    ensures { IsNextListed asked.now None result }
{
    rule_from(asked, entries_of(asked.shape), Some(0), hints)
}

/// Returns the listed rule of least rank among those whose rank is greater than the rank of this rule, or None if there
/// is none.
fn rule_after(asked: &Asked, rule: &Rule, hints: &mut Hints) -> Option<Rule>
    requires order { IsOrdered asked.now }
    requires shape { HasShape asked.now rule.now }
    ensures { IsNextListed asked.now (Some rule.now) result }
{
    let mut entries = entries_of(rule);
    let next = advance(asked, &mut entries, asked.shape.size());
    hints.catch_up(asked, &entries, next.unwrap_or(0));
    rule_from(asked, entries, next, hints)
}

/// Returns the letters of a rule's table. The numbers after them don't matter.
fn entries_of(rule: &Rule) -> Table
    ensures letters { (v : ℕ) → v < rule.now.states ^ rule.now.width → slice_index result v ≡ slice_index rule.now.table v }
    ensures table { IsTable rule.now.states (rule.now.states ^ rule.now.width) result }
{
    let mut entries = [0; MOST_ENTRIES];
    for window in 0..rule.size() {
        entries[usize::from(window)] = rule.at(window);
    }
    entries
}

/// Returns the listed rule of least rank that doesn't come before `start`. The comparison with `start` only looks at
/// the first n windows of the order, if `first` is n. Returns None if there is no such rule, or if `first` is None.
fn rule_from(asked: &Asked, start: Table, first: Option<u16>, hints: &mut Hints) -> Option<Rule>
    requires order { IsOrdered asked.now }
    requires table { AreEntries asked.now start }
    requires within { IfSome first (λ n. n ≤ size_of asked.now) }
    ensures { IsFirstListed asked.now (λ q. IsPast asked.now.shape.now.states asked.now.order.now start first q.table) result }
{
    let mut entries = start;
    let mut next = first;
    while let Some(n) = next {
        if let Some(rule) = found(asked, &entries, n) {
            return Some(rule);
        }
        next = step(asked, &mut entries, n, hints);
    }
    None
}

/// Returns the rule of the table if the letters at all windows are known and the rule is listed, and None otherwise.
/// `n` is the number of windows whose letters are known.
fn found(asked: &Asked, entries: &Table, n: u16) -> Option<Rule>
    requires order { IsOrdered asked.now }
    requires table { AreEntries asked.now entries.now }
    requires within { n ≤ size_of asked.now }
    ensures some { IfSome result (IsFilled asked.now.property asked.now.shape.now.states asked.now.shape.now.width asked.now.fixed.now entries.now n) }
    ensures none { IsNone result → n ≡ size_of asked.now → IsStartRuledOut asked.now entries.now n }
{
    if n < asked.shape.size() {
        return None;
    }
    if !has_letters(asked.shape.k(), asked.fixed, entries, n) {
        return None;
    }
    let rule = filled(asked.shape.k(), asked.shape.m(), entries);
    if !has(asked.property, &rule) {
        return None;
    }
    Some(rule)
}

/// Returns the rule with k states, width m, offset 0 and this table.
fn filled(k: u8, m: u8, entries: &Table) -> Rule
    requires shape { IsShape k m (pos 0) }
    requires table { IsTable k (k ^ m) entries.now }
    ensures rule { (result.states ≡ k) × (result.width ≡ m) × (result.offset ≡ pos 0) }
    ensures table { (v : ℕ) → v < k ^ m → slice_index result.table v ≡ slice_index entries.now v }
    ensures accepted { IsRule result }
{
    Rule::from_fn(k, m, 0, |window| entries[usize::from(window)])
}

/// Makes one step of a search. The letters at the first n windows of the order are known. The step adds the letter 0 at
/// the next window. But if the table is complete, or if its letters rule out the property, the step replaces the
/// letters by the next ones. Returns the number of windows whose letters are known afterwards, or None if there are no
/// next letters.
fn step(asked: &Asked, entries: &mut Table, n: u16, hints: &mut Hints) -> Option<u16>
    requires order { IsOrdered asked.now }
    requires table { AreEntries asked.now entries.old }
    requires within { n ≤ size_of asked.now }
    requires full { n ≡ size_of asked.now → IsStartRuledOut asked.now entries.old n }
    ensures { IsOn asked.now.property asked.now.shape.now.states asked.now.shape.now.width asked.now.fixed.now asked.now.order.now entries.old n entries.new result }
{
    if n == asked.shape.size() {
        return advance(asked, entries, n);
    }
    if rules_out_start(asked, entries, n, hints) {
        return advance(asked, entries, n);
    }
    entries[usize::from(asked.order[usize::from(n)])] = 0;
    Some(n + 1)
}
