//! Numbers of 128 bits and numbers of faults, for calls from C about rules with consecutive numbers.
ghost use Rattle.std.specs.Prelude.{◌≡◌, ◌+◌, ◌*◌, ◌^◌, Some};
ghost use Rattle.c_structs.specs.NumberedVerdicts.{number_code};

use rule_text::TextFault;

/// Returns the number with these upper and lower 64 bits.
pub fn joined(high: u64, low: u64) -> u128
    ensures { result ≡ high * 2 ^ 64 + low }
{
    u128::from(high) * 0x1_0000_0000_0000_0000 + u128::from(low)
}

/// Returns the number, from 1 to 9, by which C knows this fault.
pub fn number_of(fault: TextFault) -> u8
    ensures { result ≡ number_code (Some fault) }
{
    match fault {
        TextFault::States => 1,
        TextFault::Width => 2,
        TextFault::Nodes => 3,
        TextFault::Offset => 4,
        TextFault::Length => 5,
        TextFault::Letter(_) => 6,
        TextFault::Kind => 7,
        TextFault::Number => 8,
        TextFault::Form(_) => 9,
    }
}
