//! Steps forward and back from every pair of nodes on all letters, and steps in the marked graph. In this graph each
//! pair of nodes occurs twice, without a mark and with it. A step on two different letters sets the mark.

use crate::known_rules::{RULE_110, SUM_OF_TWO};
use pair_graph::Pairs;
use std::process::Abort;
use std::test::Fail;
use word_image::Rule;

/// Checks for each pair p that forward and back steps undo each other. If p leads to a pair q, the step back from q on
/// the first letters of the nodes of p leads to p. If a step back from p leads to a pair q, the step from q on the last
/// letters of the nodes of p leads to p.
fn undoes_steps(rt: &impl Abort, pairs: &Pairs, first_letters: &[u8]) {
    let k = pairs.rule().k();
    let nodes = u16::from(pairs.rule().nodes());
    assert_eq!(rt; first_letters.len(), usize::from(nodes));
    for p in 0..pairs.count() {
        let begins = (
            first_letters[usize::from(p / nodes)],
            first_letters[usize::from(p % nodes)],
        );
        let ends = (
            (p / nodes % u16::from(k)) as u8,
            (p % nodes % u16::from(k)) as u8,
        );
        assert!(rt; begins.0 < k && begins.1 < k);
        for a in 0..k {
            for b in 0..k {
                if let Some(q) = pairs.follow(p, a, b) {
                    assert_eq!(rt;
                        pairs.back(q, begins.0, begins.1),
                        Some(p),
                        "at {p}, {a} and {b}"
                    );
                }
                if let Some(q) = pairs.back(p, a, b) {
                    assert!(rt; q < pairs.count());
                    assert_eq!(rt;
                        pairs.follow(q, ends.0, ends.1),
                        Some(p),
                        "back at {p}, {a} and {b}"
                    );
                }
            }
        }
    }
}

#[test]
fn every_step_is_undone(rt: HostRuntime) -> Result<(), Fail> {
    let rule_110 = Rule::new(2, 3, -1, &RULE_110)?;
    undoes_steps(&rt, &Pairs::of(&rule_110), &[0, 0, 1, 1]);
    let sums = Rule::new(3, 2, 0, &SUM_OF_TWO)?;
    undoes_steps(&rt, &Pairs::of(&sums), &[0, 1, 2]);
    Ok(())
}

#[test]
fn rule_110_has_these_steps(rt: HostRuntime) -> Result<(), Fail> {
    let pairs = Pairs::of(&Rule::new(2, 3, -1, &RULE_110)?);
    assert_eq!(rt; pairs.count(), 16);
    // For each case: the number of a pair, two letters, the step of the pair, and its step in the marked graph. The
    // number 16 is pair 0 with the mark, which has a step only in the marked graph.
    let cases = [
        (9, 1, 0, Some(6), Some(22)),
        (9, 0, 0, None, None),
        (0, 1, 1, Some(5), Some(5)),
        (16, 1, 1, None, Some(21)),
    ];
    for (t, a, b, plain, marked) in cases {
        assert!(rt; t < 32 && a < 2 && b < 2);
        assert_eq!(rt; pairs.marked(t, a, b), marked, "at {t}, {a} and {b}");
        if t < 16 {
            assert_eq!(rt; pairs.follow(t, a, b), plain, "at {t}, {a} and {b}");
        }
    }
    Ok(())
}
