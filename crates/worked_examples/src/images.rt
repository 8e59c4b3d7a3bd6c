//! Images of words and of rings, worked out by hand. The program itself never prints such images.

use crate::known_rules::{RULE_110, RULE_184};
use word_image::{ImageFault, RingFault, Rule, image, ring_image};

#[test]
fn rule_110_has_these_images(rt: HostRuntime) {
    let Ok(rule) = Rule::new(2, 3, -1, &RULE_110) else {
        return assert!(rt; false, "rule 110 is refused");
    };
    let cases: [(&[u8], Result<&[u8], ImageFault>); 7] = [
        (&[0, 1, 1, 0, 0], Ok(&[1, 1, 0])),
        (&[0, 1], Ok(&[])),
        (&[0], Err(ImageFault::Short)),
        (&[], Err(ImageFault::Short)),
        (&[0, 1, 2], Err(ImageFault::Letter(2))),
        (&[0, 3, 2, 0], Err(ImageFault::Letter(1))),
        (&[2], Err(ImageFault::Letter(0))),
    ];
    for (word, want) in cases {
        match image(rt.alloc(), &rule, word) {
            Ok(found) => assert_eq!(rt; Ok(found.as_slice()), want),
            Err(fault) => assert_eq!(rt; Err(fault), want),
        }
    }
}

#[test]
fn rings_are_read_on_from_their_end(rt: HostRuntime) {
    // For each case: the offset, the ring, and the image of the ring under rule 184.
    let cases: [(i8, &[u8], Result<&[u8], RingFault>); 9] = [
        (-1, &[0, 0, 1, 1], Ok(&[1, 0, 1, 0])),
        (0, &[0, 0, 1, 1], Ok(&[0, 1, 0, 1])),
        (-16, &[0, 0, 1, 1], Ok(&[0, 1, 0, 1])),
        (14, &[0, 0, 1, 1], Ok(&[0, 1, 0, 1])),
        (-3, &[1, 0], Ok(&[0, 1])),
        (5, &[1], Ok(&[1])),
        (-1, &[], Err(RingFault::Empty)),
        (-1, &[0, 1, 2, 3], Err(RingFault::Letter(2))),
        (-1, &[9], Err(RingFault::Letter(0))),
    ];
    for (o, ring, want) in cases {
        let Ok(rule) = Rule::new(2, 3, o, &RULE_184) else {
            return assert!(rt; false, "the rule is refused");
        };
        match ring_image(rt.alloc(), &rule, ring) {
            Ok(found) => assert_eq!(rt; Ok(found.as_slice()), want),
            Err(fault) => assert_eq!(rt; Err(fault), want),
        }
    }
}
