//! The numbers by which C knows the faults of a call about the sums that a rule keeps.
ghost use Rattle.std.specs.Prelude.{◌≡◌, Some};
ghost use Rattle.c_structs.specs.RuleSums.{range_code};

use kept_sums::RangeFault;

/// Returns the number of a fault in the length of the words: 14 if they have no letter, and 15 if there are more than
/// 16 words of this length.
pub fn range_number(fault: RangeFault) -> u8
    ensures { result ≡ range_code (Some fault) }
{
    match fault {
        RangeFault::Zero => 14,
        RangeFault::Words => 15,
    }
}
