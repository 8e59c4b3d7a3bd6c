//! Configurations with periodic tails, read from their texts.
ghost use Rattle.std.specs.Prelude.{◌≡◌, IfOk};

use crate::known_rules::{RULE_30, RULE_90};
use std::test::Fail;
use tail_config::{
    Part, Tail, TailFault, TailTextFault, agree_left, agree_right, differ, parse, print, share,
};
use word_image::Rule;

/// Returns the configuration over two letters with this text.
fn tail(rt: &HostRuntime, text: &[u8]) -> Result<Tail, Fail>
    ensures { IfOk result (λ t. t.states ≡ 2) }
{
    Ok(parse(rt.alloc(), 2, text)?)
}

/// Returns the rule of two states, width 3 and offset -1 with this table.
fn rule(table: &[u8]) -> Result<Rule, Fail>
    ensures { IfOk result (λ r. r.states ≡ 2) }
{
    Ok(Rule::new(2, 3, -1, table)?)
}

#[test]
fn each_text_gives_its_tail_or_its_first_fault(rt: HostRuntime) -> Result<(), Fail> {
    let cases: [(u8, &[u8], Result<&[u8], TailTextFault>); 6] = [
        (2, b"0|1011|1", Ok(b"0|1011|1")),
        (16, b"0AF|b|cD", Ok(b"0af|b|cd")),
        (2, b"0|1", Err(TailTextFault::Form(3))),
        (2, b"|2|1|", Err(TailTextFault::Form(4))),
        (2, b"|0|1", Err(TailTextFault::Tail(TailFault::LeftEmpty))),
        (
            2,
            b"0|2|1",
            Err(TailTextFault::Tail(TailFault::Letter(Part::Middle, 0))),
        ),
    ];
    for (k, text, want) in cases {
        match parse(rt.alloc(), k, text) {
            Ok(tail) => {
                let printed = print(rt.alloc(), &tail)?;
                assert_eq!(rt; Ok(printed.as_slice()), want);
                assert_eq!(rt; tail.k(), k);
            }
            Err(fault) => assert_eq!(rt; Err(fault), want),
        }
    }
    Ok(())
}

#[test]
fn a_refusal_hands_the_parts_back(rt: HostRuntime) -> Result<(), Fail> {
    let most = [0; 1024];
    let long = [0; 1025];
    let cases: [(&[u8], &[u8], &[u8], Option<TailFault>); 7] = [
        (&most, &most, &most, None),
        (&long, &[2], &[], Some(TailFault::RightEmpty)),
        (&[], &long, &[], Some(TailFault::LeftEmpty)),
        (&[2], &long, &long, Some(TailFault::Long(Part::Middle))),
        (&[2], &[], &long, Some(TailFault::Long(Part::Right))),
        (&long, &long, &[3], Some(TailFault::Long(Part::Left))),
        (
            &[1],
            &[0, 1, 2],
            &[2],
            Some(TailFault::Letter(Part::Middle, 2)),
        ),
    ];
    for (left, middle, right, want) in cases {
        let alloc = rt.alloc();
        let (l, m, r) = (
            left.to_vec(alloc)?,
            middle.to_vec(alloc)?,
            right.to_vec(alloc)?,
        );
        match Tail::new(2, l, m, r) {
            Ok(tail) => {
                assert_eq!(rt; None, want);
                assert_eq!(rt; tail.left(), left);
                assert_eq!(rt; tail.middle(), middle);
                assert_eq!(rt; tail.right(), right);
            }
            Err(refusal) => {
                assert_eq!(rt; Some(refusal.fault), want);
                assert_eq!(rt; refusal.left.as_slice(), left);
                assert_eq!(rt; refusal.middle.as_slice(), middle);
                assert_eq!(rt; refusal.right.as_slice(), right);
            }
        }
    }
    Ok(())
}

#[test]
fn cells_stand_on_both_sides_of_place_0(rt: HostRuntime) -> Result<(), Fail> {
    let tail = tail(&rt, b"011|01|0")?;
    for (place, want) in [1, 1, 0, 1, 1, 0, 1, 0, 0].into_iter().enumerate() {
        assert_eq!(rt; tail.cell(place as i64 - 5), want);
    }
    assert_eq!(rt; tail.cell(-(1 << 61)), 1);
    assert_eq!(rt; tail.cell(1 << 61), 0);
    Ok(())
}

#[test]
fn image_cells_are_read_by_the_rule(rt: HostRuntime) -> Result<(), Fail> {
    let sum = rule(&RULE_90)?;
    assert_eq!(rt; tail(&rt, b"0|1011|1")?.image_cell(&sum, 0), 0);
    assert_eq!(rt; tail(&rt, b"0|1100|0")?.image_cell(&sum, 0), 1);
    Ok(())
}

#[test]
fn a_mirrored_tail_is_read_backwards(rt: HostRuntime) -> Result<(), Fail> {
    for (text, want) in [(b"0|100|1", b"1|001|0"), (b"01||110", b"011||10")] {
        let mirrored = tail(&rt, text)?.mirror();
        assert_eq!(rt; print(rt.alloc(), &mirrored)?.as_slice(), want.as_slice());
    }
    Ok(())
}

#[test]
fn two_tails_are_compared_at_every_integer(rt: HostRuntime) -> Result<(), Fail> {
    let rule_30 = rule(&RULE_30)?;
    let rule_90 = rule(&RULE_90)?;
    let cases: [(&[u8], &[u8], Option<i64>, bool, bool, bool, bool); 4] = [
        (b"0|1011|1", b"0|1100|0", Some(1), true, false, true, false),
        (b"01||01", b"0101|01|010101", None, true, true, true, true),
        (b"0||0", b"1||1", Some(0), false, false, true, true),
        (b"000||0", b"001||0", Some(-1), false, true, false, false),
    ];
    for (x, y, place, left, right, by_30, by_90) in cases {
        let a = tail(&rt, x)?;
        let b = tail(&rt, y)?;
        assert_eq!(rt; differ(&a, &b), place);
        assert_eq!(rt; differ(&b, &a), place);
        assert_eq!(rt; agree_left(&a, &b), left);
        assert_eq!(rt; agree_right(&a, &b), right);
        assert_eq!(rt; share(&rule_30, &a, &b), by_30);
        assert_eq!(rt; share(&rule_90, &a, &b), by_90);
    }
    Ok(())
}
