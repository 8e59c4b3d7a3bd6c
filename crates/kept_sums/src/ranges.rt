//! The lengths of words that can have weights.
ghost use Rattle.std.specs.Prelude.{◌≡◌, ◌≤◌};
ghost use Rattle.std.specs.Result.{result_err};
ghost use Rattle.kept_sums.specs.RangeFaults.{range_fault};

/// Why words of this length can't have weights.
#[derive(Clone, Copy, Debug, PartialEq, Eq)]
pub enum RangeFault {
    /// The words have no letter.
    Zero,
    /// There are more than 16 words of this length.
    Words,
}

/// Checks whether the words of `range` letters can have weights: there must be at least one letter and at most 16
/// such words. Returns the fault otherwise. There are from 2 to 16 states.
pub fn check_range(k: u8, range: u8) -> Result<(), RangeFault>
    requires least { 2 ≤ k }
    requires most { k ≤ 16 }
    ensures { result_err result ≡ range_fault k range }
{
    if range == 0 {
        return Err(RangeFault::Zero);
    }
    // Words of five letters are too many: there are at least 32 of them.
    if range > 4 || u32::from(k).pow(u32::from(range)) > 16 {
        return Err(RangeFault::Words);
    }
    Ok(())
}
