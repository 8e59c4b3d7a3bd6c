//! Least walks between marked pairs of nodes: the shortest ones, and the first of these in dictionary order. In the
//! marked graph each pair of nodes occurs twice, without a mark and with it. A step on two different letters sets the
//! mark. The expected walks come from lists of all walks.

use crate::known_rules::{RULE_110, RULE_170, RULE_184, SUM_OF_TWO};
use least_walk::Walker;
use pair_graph::Pairs;
use std::test::Fail;
use word_image::Rule;

// For each case: the states, the width and the table of a rule, the marked pair at the start, the marked pair at the
// end, and the steps of the least walk. The list of steps is empty if there is no walk.
const CASES: [(u8, u8, &[u8], u16, u16, &[u8]); 14] = [
    // The steps 0, 1, 16 and 17 are the letter pairs 00, 01, 10 and 11. So this walk has 0011 as its first letters
    // and 0101 as its second letters.
    (2, 3, &RULE_184, 13, 29, &[0, 1, 16, 17]),
    (2, 3, &RULE_184, 29, 13, &[]),
    (2, 3, &RULE_184, 0, 0, &[0]),
    (2, 3, &RULE_184, 0, 16, &[1, 16, 17, 0, 0]),
    (2, 3, &RULE_184, 13, 13, &[]),
    (2, 3, &RULE_110, 9, 22, &[16]),
    (2, 3, &RULE_110, 0, 16, &[17, 1, 16, 17, 0, 0]),
    (2, 3, &RULE_110, 6, 25, &[1]),
    (3, 2, &SUM_OF_TWO, 0, 9, &[]),
    (3, 2, &SUM_OF_TWO, 1, 10, &[2, 1]),
    (3, 2, &SUM_OF_TWO, 5, 5, &[]),
    (2, 3, &RULE_170, 0, 16, &[]),
    (2, 3, &RULE_170, 6, 6, &[]),
    (2, 3, &RULE_170, 0, 10, &[17, 0]),
];

#[test]
fn rules_have_these_least_walks(rt: HostRuntime) -> Result<(), Fail> {
    let mut walker = Walker::new(rt.alloc())?;
    for (k, m, table, from, to, steps) in CASES {
        let pairs = Pairs::of(&Rule::new(k, m, 0, table)?);
        assert!(rt; from < 2 * pairs.count() && to < 2 * pairs.count());
        match walker.walk(&pairs, from, to) {
            Some(found) => assert_eq!(rt; found, steps, "from {from} to {to}"),
            None => assert!(rt; steps.is_empty(), "from {from} to {to}"),
        }
    }
    Ok(())
}
