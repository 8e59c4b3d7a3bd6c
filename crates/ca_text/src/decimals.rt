//! The functions `write_decimal` and `write_u32`, which write the decimal digits of a number from their end.
ghost use Rattle.std.specs.Prelude.{◌≡◌, ◌+◌, ◌≤◌, ◌++◌, length, drop};
ghost use Rattle.std.specs.Fmt.{decimal};

/// The greatest number of decimal digits of a number below 2^128.
pub const MOST_DIGITS: usize = 39;

/// Writes the decimal digits of a number. The last digit is at place `end - 1`. Returns the place of the first digit.
/// The bytes at place `end` and after it stay unchanged.
pub fn write_decimal(number: u128, bytes: &mut [u8], end: usize) -> usize
    requires room { length (decimal number) ≤ end }
    requires end { end ≤ length bytes.old }
    ensures first { result + length (decimal number) ≡ end }
    ensures digits { drop result bytes.new ≡ decimal number ++ drop end bytes.old }
{
    let mut left = number;
    let mut place = end;
    while left > u128::from(u32::MAX) {
        place -= 1;
        bytes[place] = b'0' + (left % 10) as u8;
        left /= 10;
    }
    write_u32(left as u32, bytes, place)
}

/// Does the same for a number of 32 bits, with divisions of 32 bits.
pub fn write_u32(number: u32, bytes: &mut [u8], end: usize) -> usize
    requires room { length (decimal number) ≤ end }
    requires end { end ≤ length bytes.old }
    ensures first { result + length (decimal number) ≡ end }
    ensures digits { drop result bytes.new ≡ decimal number ++ drop end bytes.old }
{
    let mut left = number;
    let mut place = end;
    while left >= 10 {
        place -= 1;
        bytes[place] = b'0' + (left % 10) as u8;
        left /= 10;
    }
    place -= 1;
    bytes[place] = b'0' + left as u8;
    place
}
