//! The sets of nodes to which words lead from the set of all nodes, for rule 106, worked out by hand. They are called
//! the family of the rule.

use crate::known_rules::RULE_106;
use debruijn::Graph;
use image_subsets::Family;
use std::test::Fail;
use word_image::Rule;

#[test]
fn rule_106_has_twelve_sets(rt: HostRuntime) -> Result<(), Fail> {
    let graph = Graph::of(&Rule::new(2, 3, -1, &RULE_106)?);
    let mut family = Family::new(rt.alloc())?;
    assert_eq!(rt; family.len(), 0);
    family.explore(&graph);
    // Each set of the family, and the place of its parent and the label that leads from there to the set.
    let want = [
        (15, None),
        (13, Some((0, 0))),
        (14, Some((0, 1))),
        (9, Some((1, 0))),
        (6, Some((1, 1))),
        (5, Some((4, 0))),
        (10, Some((4, 1))),
        (1, Some((5, 0))),
        (2, Some((5, 1))),
        (12, Some((6, 0))),
        (4, Some((8, 0))),
        (8, Some((8, 1))),
    ];
    assert_eq!(rt; family.len(), 12);
    for (i, (set, parent)) in want.into_iter().enumerate() {
        let i = i as u32;
        assert!(rt; i < family.len());
        assert_eq!(rt; (family.set(i), family.parent(i)), (set, parent), "at {i}");
    }
    Ok(())
}
