//! Inverse maps over windows that the program never uses: windows that aren't the least, and windows without a map.

use crate::known_rules::{RULE_170, RULE_204};
use inverse_table::{InvFault, InverseMap, table};
use inverse_window::WindowAt;
use std::alloc::Global;
use std::process::Abort;
use std::test::Fail;
use word_image::Rule;

// Returns the result of `table` for the window (n, c), or a failed test if the rule doesn't have this window.
fn answer(
    alloc: Global,
    rule: &Rule,
    n: u16,
    c: u16,
) -> Result<Result<InverseMap, InvFault>, Fail> {
    let letters = u32::from(n) + u32::from(rule.m());
    if n < 1 || n > 480 || u32::from(c) + 2 > letters {
        return Err(Fail::new("no window of this rule"));
    }
    Ok(table(alloc, rule, WindowAt { n, c }))
}

// Returns the inverse map over the window (n, c), or a failed test if there is none.
fn map_of(alloc: Global, rule: &Rule, n: u16, c: u16) -> Result<InverseMap, Fail> {
    match answer(alloc, rule, n, c)? {
        Ok(map) => Ok(map),
        Err(_) => Err(Fail::new("no map")),
    }
}

#[test]
fn windows_without_a_map(rt: HostRuntime) -> Result<(), Fail> {
    let middle = Rule::new(2, 3, -1, &RULE_204)?;
    let Err(InvFault::NotDetermined { x, y }) = answer(rt.alloc(), &middle, 1, 0)? else {
        return Err(Fail::new("not refused"));
    };
    let (x, y) = (x.as_slice(), y.as_slice());
    assert!(rt; x.len() == 3 && y.len() == 3 && x[0] != y[0] && x[1] == y[1]);
    let right = Rule::new(2, 3, -1, &RULE_170)?;
    let wide = answer(rt.alloc(), &right, 17, 2)?;
    assert!(rt; matches!(&wide, Err(InvFault::Wide)));
    Ok(())
}

#[test]
fn the_longest_map(rt: HostRuntime) -> Result<(), Fail> {
    let right = Rule::new(2, 3, -1, &RULE_170)?;
    let map = map_of(rt.alloc(), &right, 16, 2)?;
    assert_eq!(rt; map.offset(), -1);
    assert_eq!(rt; map.table().len(), 65536);
    assert!(rt; map.table().iter().take(32768).all(|letter| *letter == 0));
    assert!(rt; map.table().iter().skip(32768).all(|letter| *letter == 1));
    Ok(())
}
