//! The de Bruijn graph of rule 110, worked out by hand.

use crate::known_rules::RULE_110;
use debruijn::Graph;
use std::test::Fail;
use word_image::Rule;

#[test]
fn rule_110_has_this_graph(rt: HostRuntime) -> Result<(), Fail> {
    let graph = Graph::of(&Rule::new(2, 3, -1, &RULE_110)?);
    assert_eq!(rt; (graph.k(), graph.nodes()), (2, 4));
    // For each edge: the node at its start, its letter, the node at its end, and its label.
    let edges = [
        (0, 0, 0, 0),
        (0, 1, 1, 1),
        (1, 0, 2, 1),
        (1, 1, 3, 1),
        (2, 0, 0, 0),
        (2, 1, 1, 1),
        (3, 0, 2, 1),
        (3, 1, 3, 0),
    ];
    for (u, a, next, label) in edges {
        assert!(rt; u < 4 && a < 2);
        assert_eq!(rt;
            (graph.next(u, a), graph.label(u, a)),
            (next, label),
            "at {u} and {a}"
        );
    }
    let ends = [
        (0, 0, 1),
        (0, 1, 2),
        (1, 0, 0),
        (1, 1, 12),
        (2, 0, 1),
        (2, 1, 2),
        (3, 0, 8),
        (3, 1, 4),
    ];
    for (u, label, set) in ends {
        assert!(rt; u < 4 && label < 2);
        assert_eq!(rt; graph.ends(u, label), set, "at {u} and {label}");
    }
    Ok(())
}

#[test]
fn the_word_01010_empties_the_sets_of_rule_110(rt: HostRuntime) -> Result<(), Fail> {
    let graph = Graph::of(&Rule::new(2, 3, -1, &RULE_110)?);
    let mut set = graph.full();
    assert_eq!(rt; set, 15);
    for (letter, after) in [(0, 9), (1, 6), (0, 1), (1, 2), (0, 0)] {
        assert!(rt; set < 16 && letter < 2);
        set = graph.step(set, letter);
        assert_eq!(rt; set, after);
    }
    Ok(())
}
