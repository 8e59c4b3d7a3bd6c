//! Tests that one search can look for orphans of one rule after another. No contract says that there is memory for a
//! search, or what an earlier run leaves behind. The expected verdicts are well known or follow by hand.

use crate::known_rules::{RULE_106, RULE_110};
use orphan_search::{Outcome, Search};
use std::test::Fail;
use word_image::Rule;

// Rule 106 is searched between two searches of rule 110. Each search has the same result as the first search of its
// rule.
#[test]
fn one_search_decides_rule_after_rule(rt: HostRuntime) -> Result<(), Fail> {
    let orphaned = Rule::new(2, 3, -1, &RULE_110)?;
    let closed = Rule::new(2, 3, -1, &RULE_106)?;
    let mut search = Search::new(rt.alloc())?;
    let nothing = (search.word(), search.sets(), search.cover());
    assert!(rt; nothing.0.is_empty() && nothing.1.is_empty() && nothing.2.is_empty());
    for rule in [orphaned, closed, orphaned] {
        let orphan: &[u8] = if rule == closed {
            &[]
        } else {
            &[0, 1, 0, 1, 0]
        };
        let outcome = search.run(&rule);
        assert!(rt; matches!(outcome, Outcome::Closed) == orphan.is_empty());
        assert_eq!(rt; search.word(), orphan);
        assert!(rt; search.sets().is_empty() != orphan.is_empty());
        assert!(rt; search.cover().is_empty() != orphan.is_empty());
    }
    Ok(())
}

#[test]
fn rule_106_reaches_twelve_sets_whatever_ran_before(rt: HostRuntime) -> Result<(), Fail> {
    let mut search = Search::new(rt.alloc())?;
    // The shift of sixteen states has sets with nodes that rule 106 doesn't have.
    let shift: Vec<u8> = (0..=255u8).map(|window| window % 16).collect(rt.alloc())?;
    assert_eq!(rt; search.run(&Rule::new(16, 2, 0, &shift)?), Outcome::Closed);
    assert_eq!(rt; search.word(), [].as_slice());
    let rule = Rule::new(2, 3, -1, &RULE_106)?;
    assert_eq!(rt; search.run(&rule), Outcome::Closed);
    assert_eq!(rt;
        search.sets(),
        [15, 13, 14, 9, 6, 5, 10, 1, 2, 12, 4, 8].as_slice()
    );
    assert_eq!(rt; search.cover(), [15, 1, 2, 4, 8].as_slice());
    Ok(())
}
