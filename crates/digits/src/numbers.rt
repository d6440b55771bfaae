// Numbers of several digits: up to six are read, and any lent part is filled.
ghost use Rattle.std.specs.Prelude.{◌≡◌, ◌≤◌, ◌<◌, ◌^◌, length};
ghost use Rattle.digits.specs.Digits.{number, digits};

use crate::{digit_byte, digit_value};

// The number that so many digits at an offset say.
pub(crate) fn number(bytes: &[u8], at: usize, count: usize) -> u32
    requires { (at < 2 ^ 32) × (count ≤ 6) }
    ensures { result ≡ number bytes.now at count }
{
    let mut sum = 0;
    for place in at..at + count {
        // A byte past the end counts as a byte 0.
        let byte = bytes.get(place).copied().unwrap_or(0);
        sum = sum * 16 + u32::from(digit_value(byte));
    }
    sum
}

// Fills the lent part with the last digits of a value.
pub(crate) fn fill(out: &mut [u8], value: u32)
    ensures { out.new ≡ digits (length out.old) value }
{
    let mut rest = value;
    for place in (0..out.len()).rev() {
        out[place] = digit_byte((rest % 16) as u8);
        rest /= 16;
    }
}
