//! Tables of rules that many tests use. A table lists the letters that the rule gives for its windows, in dictionary
//! order. The elementary rules are named by their Wolfram numbers.

pub const RULE_30: [u8; 8] = [0, 1, 1, 1, 1, 0, 0, 0];

pub const RULE_90: [u8; 8] = [0, 1, 0, 1, 1, 0, 1, 0];

pub const RULE_106: [u8; 8] = [0, 1, 0, 1, 0, 1, 1, 0];

pub const RULE_110: [u8; 8] = [0, 1, 1, 1, 0, 1, 1, 0];

pub const RULE_170: [u8; 8] = [0, 1, 0, 1, 0, 1, 0, 1];

pub const RULE_184: [u8; 8] = [0, 0, 0, 1, 1, 1, 0, 1];

pub const RULE_204: [u8; 8] = [0, 0, 1, 1, 0, 0, 1, 1];

/// The table of the rule of 3 states that adds its two cells modulo 3.
pub const SUM_OF_TWO: [u8; 9] = [0, 1, 2, 1, 2, 0, 2, 0, 1];
